// The texts of an area and of its tracks, decoded from a lone table. Nothing that is handed in is trusted.
ghost use Rattle.std.specs.Prelude.{◌≡◌, length};
ghost use Rattle.text.specs.Decode.{answer_by, decode_of, decode_into};
ghost use Rattle.area.specs.TextDecode.{table_short, no_such_area, no_such_track, text_at, area_text_in, track_index, track_text_in, track_text_by, text_answer, text_page};

use crate::area::Area;
use crate::table::{MAX_TRACKS, table_bytes, table_size};
use crate::text_places::TRACK_TEXTS;
use crate::track::Track;
use crate::tracks::place_at;
use text::decode::DecodeRefusal;
use text::stored::decode_placed;

// Whether fewer bytes are lent than the table of an area's record has.
#[tactic(auto, unfolding(crate::specs::TextDecode::table_short))]
fn table_short(bytes: usize, area: Area) -> bool
    ensures { result ≡ table_short bytes area }
{
    bytes < table_size(area.origin.toc_sectors)
}

// Whether a record is that of no area.
#[tactic(auto, unfolding(crate::specs::TextDecode::no_such_area))]
fn no_such_area(area: Area) -> bool
    ensures { result ≡ no_such_area area }
{
    area.present != 1 || !(1..=2).contains(&area.origin.slot)
}

// Decodes the text at a place of an area's table, 0 for an absent one.
#[tactic(auto, unfolding(crate::specs::TextDecode::text_at))]
fn decode_at(
    lent: &[u8],
    area: Area,
    place: u32,
    mapping: &[u32],
    page: &mut [u8],
) -> Result<usize, DecodeRefusal>
    ensures answer { answer_by result ≡ decode_of (text_at lent.now area place) area.text_charset mapping.now (length page.old) }
    ensures filled { page.new ≡ decode_into (text_at lent.now area place) area.text_charset mapping.now page.old }
{
    let table = table_bytes(lent, area.origin.toc_sectors);
    decode_placed(table, place, area.text_charset, mapping, page)
}

// Decodes a text of an area, by its item index, to the start of a page.
#[tactic(auto, using(text::proofs::AnswerLaws::answer_short_buffer, text::proofs::AnswerLaws::answer_no_such_entry), unfolding(crate::specs::TextDecode::area_text_in, crate::specs::TextDecode::text_of, crate::specs::TextDecode::place_of, crate::specs::TextDecode::text_answer, crate::specs::TextDecode::text_page))]
pub fn decode_area_text(
    table: &[u8],
    area: Area,
    item: u32,
    mapping: &[u32],
    page: &mut [u8],
) -> Result<usize, DecodeRefusal>
    ensures answer { answer_by result ≡ text_answer (area_text_in table.now area item) mapping.now (length page.old) }
    ensures filled { page.new ≡ text_page (area_text_in table.now area item) mapping.now page.old }
{
    if table_short(table.len(), area) {
        return Err(DecodeRefusal::ShortBuffer);
    }
    if no_such_area(area) {
        return Err(DecodeRefusal::NoSuchEntry);
    }
    let text = area
        .text
        .get(item as usize)
        .ok_or(DecodeRefusal::NoSuchEntry)?;
    decode_at(table, area, text.place, mapping, page)
}

// The place in a list of the track of a number; for 0 the first.
#[tactic(auto, unfolding(crate::specs::TextDecode::track_index))]
fn track_index(number: u32) -> usize
    ensures { result ≡ track_index number }
{
    number.saturating_sub(1) as usize
}

// Whether an area has no track of a number; above 255 tracks count as 255.
#[tactic(auto, unfolding(crate::specs::TextDecode::no_such_track))]
fn no_such_track(area: Area, number: u32) -> bool
    ensures { result ≡ no_such_track area number }
{
    !(1..=(area.track_count as usize).min(MAX_TRACKS)).contains(&(number as usize))
}

// Decodes the text that a track of a list of so many has at a place, by the track's number and the item index.
#[tactic(auto, using(text::proofs::AnswerLaws::answer_short_buffer, text::proofs::AnswerLaws::answer_no_such_entry), unfolding(crate::specs::TextDecode::track_text_in, crate::specs::TextDecode::text_of, crate::specs::TextDecode::text_answer, crate::specs::TextDecode::text_page))]
pub fn decode_of_track(
    table: &[u8],
    area: Area,
    room: usize,
    place: u32,
    number: u32,
    item: u32,
    mapping: &[u32],
    page: &mut [u8],
) -> Result<usize, DecodeRefusal>
    ensures answer { answer_by result ≡ text_answer (track_text_in table.now area room place number item) mapping.now (length page.old) }
    ensures filled { page.new ≡ text_page (track_text_in table.now area room place number item) mapping.now page.old }
{
    if table_short(table.len(), area) || room < MAX_TRACKS {
        return Err(DecodeRefusal::ShortBuffer);
    }
    if no_such_area(area) || no_such_track(area, number) || TRACK_TEXTS <= item as usize {
        return Err(DecodeRefusal::NoSuchEntry);
    }
    decode_at(table, area, place, mapping, page)
}

// Decodes a text of a track, by its number and item index, to the start of a page.
#[tactic(auto, unfolding(crate::specs::TextDecode::track_text_by))]
pub fn decode_track_text(
    table: &[u8],
    area: Area,
    tracks: &[Track],
    number: u32,
    item: u32,
    mapping: &[u32],
    page: &mut [u8],
) -> Result<usize, DecodeRefusal>
    ensures { (answer_by result ≡ text_answer (track_text_by table.now area tracks.now number item) mapping.now (length page.old))
        × (page.new ≡ text_page (track_text_by table.now area tracks.now number item) mapping.now page.old) }
{
    let place = place_at(tracks, track_index(number), item);
    decode_of_track(
        table,
        area,
        tracks.len(),
        place,
        number,
        item,
        mapping,
        page,
    )
}
