// Where the texts of a record stand in its table, and how each ended.
ghost use Rattle.std.specs.Prelude.{◌≡◌};
ghost use Rattle.text.specs.String.{end_by};
ghost use Rattle.area.specs.TextPlaces.{text_place_at, any_unterminated};

use sectors::number::be16_at;
use text::string::{StringEnd, end_by, string_bytes};

// Texts of an area, and of a track.
pub const AREA_TEXTS: usize = 4;

pub const TRACK_TEXTS: usize = 14;

// The end of an absent text: none.
const NO_END: u8 = 0;

// The place of a text's string in its table, and how the string ended; as C has it, both 0 for an absent text.
#[repr(C)]
#[derive(Clone, Copy, Default)]
pub struct TextPlace {
    pub place: u32,
    pub end: u8,
}

// An absent text.
pub const NO_TEXT: TextPlace = TextPlace {
    place: 0,
    end: NO_END,
};

// The text whose string, of so many bytes, stands at a place of a table of so many.
pub(crate) fn text_at(size: usize, place: u32, len: usize) -> TextPlace
    ensures { result ≡ record { place = place; end = end_by size place len } }
{
    TextPlace {
        place,
        end: u8::from(end_by(size, place as usize, len)),
    }
}

// The text whose offset stands in two bytes from a place on.
#[tactic(auto, using(crate::proofs::TextPlaceLaws::placed_text_lem, text::proofs::StringLaws::present_length), unfolding(crate::specs::TextPlaces::text_place_at, crate::specs::TextPlaces::is_absent))]
pub fn text_place_at(table: &[u8], at: usize) -> TextPlace
    ensures { result ≡ text_place_at table.now at }
{
    let offset = be16_at(table, at);
    let len = string_bytes(table, offset as usize).len();
    if offset == 0 || len == 0 {
        return NO_TEXT;
    }
    text_at(table.len(), offset as u32, len)
}

// Whether one of a track's texts ended by other than a zero byte. (Not inlined, and without a branch: so the records of tracks are copied as wholes,
// and not each text's place and end by themselves.)
#[inline(never)]
#[tactic(auto, unfolding(crate::specs::TextPlaces::any_unterminated, crate::specs::TextPlaces::is_unterminated))]
pub(crate) fn any_unterminated(texts: [TextPlace; TRACK_TEXTS]) -> bool
    ensures { result ≡ any_unterminated texts }
{
    texts.iter().fold(false, |any, text| {
        any | ((text.end != NO_END) & (text.end != StringEnd::ZeroByte as u8))
    })
}
