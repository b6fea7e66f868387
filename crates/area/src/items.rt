// The items of a track's text, one at a time.
ghost use Rattle.std.specs.Prelude.{◌≡◌, ◌==◌, not, position, length};
ghost use Rattle.area.specs.Items.{draw_at};

use text::string::string_bytes;

// An item that was drawn: its type byte, the place and length of its string, and where the next draw is from.
#[derive(Clone, Copy, Debug, PartialEq, Eq)]
pub struct Drawn {
    pub kind: u8,
    pub place: usize,
    pub len: usize,
    pub next: usize,
    pub left: usize,
}

// Where the first byte stands that is not zero.
fn nonzero_in(bytes: &[u8]) -> Option<usize>
    ensures { result ≡ position (λ b. not (b == 0)) bytes.now }
{
    bytes.iter().position(|b| *b != 0)
}

// The next item from a place on, of so many that are left, empty and unknown ones included; none at the end.
#[tactic(auto, using(crate::specs::ItemLaws::draw_none, crate::specs::ItemLaws::draw_short, text::proofs::StringLaws::string_within))]
pub fn draw_at(table: &[u8], next: usize, left: usize) -> Option<Drawn>
    ensures { result ≡ draw_at table.now next left }
{
    let left = left.checked_sub(1)?;
    let [kind, _, ..] = table.get(next..)? else {
        return None;
    };
    let place = next + 2;
    let len = string_bytes(table, place).len();
    let end = place + len;
    let (next, left) = match nonzero_in(&table[end..]) {
        Some(zeros) => (end + zeros, left),
        None => (table.len(), 0),
    };
    Some(Drawn {
        kind: *kind,
        place,
        len,
        next,
        left,
    })
}
