// Stored strings: the bytes of a table from a place up to a zero byte, and how they ended.
ghost use Rattle.std.specs.Prelude.{◌≡◌, length};
ghost use Rattle.sectors.specs.Fill.{part, start_at};
ghost use Rattle.text.specs.String.{until_zero, max_string_bytes, string_at, string_start, end_number, end_by, end_of};

// Bytes that a string has at most.
pub const MAX_STRING_BYTES: usize = 4096;

// How a string ended.
#[derive(Clone, Copy, Debug, PartialEq, Eq)]
pub enum StringEnd {
    ZeroByte = 1,
    MaxBytes = 2,
    TableEnd = 3,
}

impl From<StringEnd> for u8 {
    ghost from_gives = { λ e n. n ≡ end_number e };

    #[tactic(auto, unfolding(crate::specs::String::end_number))]
    fn from(end: StringEnd) -> u8 {
        end as u8
    }
}

// How many bytes stand before the first zero byte; all, if there is none.
#[tactic(auto, unfolding(crate::specs::String::until_zero, crate::specs::String::nonzero))]
pub(crate) fn zero_in(bytes: &[u8]) -> usize
    ensures { result ≡ length (until_zero bytes.now) }
{
    bytes.iter().take_while(|b| **b != 0).count()
}

// The bytes that the string at a place can have, as a part of the table.
#[tactic(auto, using(sectors::specs::FillLaws::slice_part, sectors::specs::FillLaws::part_cut, sectors::specs::FillLaws::part_from, sectors::specs::FillLaws::slice_start), unfolding(crate::specs::String::string_start))]
pub(crate) fn string_window<'a>(table: &'a [u8], place: usize) -> &'a [u8]
    ensures bytes { result.now ≡ part place max_string_bytes table.now }
    ensures placed { result.ref_ptr ≡ start_at table.entry.ref_ptr (string_start table.now place) }
{
    let start = place.min(table.len());
    let size = MAX_STRING_BYTES.min(table.len() - start);
    &table[start..start + size]
}

// The string at a place, as a part of the table; empty at its end, and for a place past it.
#[tactic(auto, using(crate::proofs::StringLaws::until_taken), unfolding(crate::specs::String::string_at))]
pub fn string_bytes<'a>(table: &'a [u8], place: usize) -> &'a [u8]
    ensures bytes { result.now ≡ string_at table.now place }
    ensures placed { result.ref_ptr ≡ start_at table.entry.ref_ptr (string_start table.now place) }
{
    let window = string_window(table, place);
    let n = zero_in(window);
    &window[..n]
}

// How a string ended: in a table of so many bytes, of the string at a place that has so many.
#[tactic(auto, using(crate::proofs::StringLaws::end_max, crate::proofs::StringLaws::end_zero, crate::proofs::StringLaws::end_table), unfolding(crate::specs::String::end_number))]
pub fn end_by(size: usize, place: usize, len: usize) -> StringEnd
    ensures { end_number result ≡ end_by size place len }
{
    if len == MAX_STRING_BYTES {
        return StringEnd::MaxBytes;
    }
    if len < size.saturating_sub(place) {
        return StringEnd::ZeroByte;
    }
    StringEnd::TableEnd
}

// How the string at a place ended; one at the table's end, or past it, by that.
#[tactic(auto, using(crate::proofs::StringLaws::end_of_lem))]
pub fn string_end(table: &[u8], place: usize) -> StringEnd
    ensures { end_number result ≡ end_of table.now place }
{
    end_by(table.len(), place, string_bytes(table, place).len())
}
