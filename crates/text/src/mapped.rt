// Strings decoded by a mapping: how long their text is, and its UTF-8 written to a page.
ghost use Rattle.std.specs.Prelude.{◌≡◌, ◌≤◌, true, leb, length};
ghost use Rattle.sectors.specs.Fill.{fill};
ghost use Rattle.text.specs.Charset.{set_number};
ghost use Rattle.text.specs.Decode.{mapped_of, unless_absent, answer_by, answer_in, page_with};
ghost use Rattle.text.specs.Mapped.{points_by};
ghost use Rattle.text.specs.Mapping.{all_points};
ghost use Rattle.text.specs.Points.{points_left};
ghost use Rattle.text.specs.Utf8.{utf8, blanked, encoded};

use crate::charset::CharacterSet;
use crate::decode::DecodeRefusal;
use crate::mapping::Mapping;
use crate::points::Points;
use crate::utf8::put_character;

// A byte of a string gives at most so many of UTF-8: two code points of four bytes.
const MOST_BYTES: usize = 8;

// How many bytes the UTF-8 of a character has; `char::len_utf8` would want a `char`, made again of each number that is known to be one.
#[tactic(auto, using(crate::proofs::Rules::utf8_sizes, crate::specs::Utf8Laws::blanked_below, crate::specs::Utf8Laws::blanked_high))]
fn point_length(point: u32) -> usize
    ensures { result ≡ length (utf8 (blanked point)) }
{
    match point {
        0..0x80 => 1,
        0x80..0x800 => 2,
        0x800..0x10000 => 3,
        _ => 4,
    }
}

// Whether the text of code points has at most so many bytes: what is left of them is counted down.
#[tactic(auto, using(std::proofs::lemmas::Bool::Decides::nat_tests, crate::proofs::PointsLaws::length_first, crate::specs::Utf8Laws::encoded_none))]
fn fits(points: Points<'_>, room: usize) -> bool
    ensures { result ≡ leb (length (encoded (points_left points.entry))) room }
{
    let mut left = room;
    for point in points {
        let size = point_length(point);
        if left < size {
            return false;
        }
        left -= size;
    }
    true
}

// The same of a string, without a look at the bytes where there is room for whatever they give.
#[tactic(auto, using(std::proofs::lemmas::Bool::Decides::nat_tests, crate::proofs::MappedLaws::points_most))]
fn has_room(mapping: &Mapping<'_>, set: CharacterSet, bytes: &[u8], room: usize) -> bool
    ensures { result ≡ leb (length (encoded (points_by mapping.now (set_number set) bytes.now))) room }
{
    bytes.len() <= room / MOST_BYTES || fits(Points::new(mapping, set, bytes), room)
}

// Writes the text of code points to the start of a page; answers how many bytes it has.
#[tactic(auto, using(crate::specs::Utf8Laws::encoded_none, sectors::specs::FillLaws::fill_none))]
fn put_points(points: Points<'_>, page: &mut [u8]) -> usize
    requires { (all_points (points_left points) ≡ true) × (length (encoded (points_left points)) ≤ length page.old) }
    ensures filled { page.new ≡ fill 0 (encoded (points_left points.entry)) page.old }
    ensures size { result ≡ length (encoded (points_left points.entry)) }
{
    let mut len = 0;
    for point in points {
        len = put_character(page, len, point);
    }
    len
}

// Decodes a string of set 3 to 6 by a mapping; an absent one without a look at it.
#[tactic(auto, using(std::proofs::lemmas::Bool::Decides::nat_tests, crate::proofs::Rules::mapped, crate::proofs::MappedLaws::none_taken, crate::proofs::MappedLaws::one_taken, crate::proofs::MappedLaws::points_sound), unfolding(crate::specs::Mapped::mapped_points, crate::specs::Decode::answer_by, crate::specs::Refusal::number_of, crate::specs::Decode::answer_in, crate::specs::Decode::page_with))]
pub(crate) fn decode_mapped(
    bytes: &[u8],
    set: CharacterSet,
    words: &[u32],
    page: &mut [u8],
) -> Result<usize, DecodeRefusal>
    ensures answer { answer_by result ≡ answer_in (length page.old) (unless_absent bytes.now (mapped_of words.now (set_number set) bytes.now)) }
    ensures filled { page.new ≡ page_with (unless_absent bytes.now (mapped_of words.now (set_number set) bytes.now)) page.old }
{
    if bytes.is_empty() {
        return Ok(0);
    }
    if words.is_empty() {
        return Err(DecodeRefusal::SetNotHeld);
    }
    let Some(mapping) = Mapping::new(words) else {
        return Err(DecodeRefusal::BadMapping);
    };
    if !has_room(&mapping, set, bytes, page.len()) {
        return Err(DecodeRefusal::ShortPage);
    }
    Ok(put_points(Points::new(&mapping, set, bytes), page))
}
