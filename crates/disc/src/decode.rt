// Decoding of texts after a disc reading. Nothing of what is lent or handed in is trusted.
ghost use Rattle.std.specs.Prelude.{◌≡◌, length};
ghost use Rattle.area.specs.TextDecode.{text_answer, text_page};
ghost use Rattle.text.specs.Decode.{answer_by};
ghost use Rattle.disc.specs.TextDecode.{disc_text_sector, disc_text_in, area_text_on, track_place, track_text_on, track_text_at};

use crate::master::{DISC_TEXTS, MasterToc};
use crate::regions::{TRACK_RECORDS, WORK_BYTES, master_region, region_of, tracks_from};
use area::area::Area;
use area::bytes::part_of;
use area::decode::{decode_area_text, decode_of_track};
use area::table::MAX_TRACKS;
use area::track::Track;
use area::tracks::place_at;
use sectors::sector::SECTOR_SIZE;
use text::decode::DecodeRefusal;
use text::stored::decode_placed;

// Sector 1 of the master table, where the disc's texts stand.
#[tactic(auto, unfolding(crate::specs::TextDecode::disc_text_sector, crate::specs::Master::text_sector))]
fn disc_text_sector<'a>(work: &'a [u8]) -> &'a [u8]
    ensures { result.now ≡ disc_text_sector work.now }
{
    part_of(master_region(work), SECTOR_SIZE, SECTOR_SIZE)
}

// Decodes a text of the disc, by its item index, to the start of a page.
#[tactic(auto, using(crate::specs::TextDecodeLaws::short_answer, crate::specs::TextDecodeLaws::missing_answer, crate::specs::TextDecodeLaws::refused_page, crate::specs::TextDecodeLaws::found_answer, crate::specs::TextDecodeLaws::found_page), unfolding(crate::specs::TextDecode::disc_text_in, crate::specs::TextDecode::disc_text_at, crate::specs::TextDecode::disc_place, crate::specs::TextDecode::work_short))]
pub fn decode_disc_text(
    work: &[u8],
    master: MasterToc,
    item: u32,
    mapping: &[u32],
    page: &mut [u8],
) -> Result<usize, DecodeRefusal>
    ensures answer { answer_by result ≡ text_answer (disc_text_in work.now master item) mapping.now (length page.old) }
    ensures filled { page.new ≡ text_page (disc_text_in work.now master item) mapping.now page.old }
{
    if work.len() < WORK_BYTES {
        return Err(DecodeRefusal::ShortBuffer);
    }
    let text = master
        .text
        .get(item as usize)
        .ok_or(DecodeRefusal::NoSuchEntry)?;
    decode_placed(
        disc_text_sector(work),
        text.place,
        master.text_charset,
        mapping,
        page,
    )
}

// Decodes a text of an area, by its item index, to the start of a page.
#[tactic(auto, using(crate::specs::TextDecodeLaws::short_answer, crate::specs::TextDecodeLaws::missing_answer, crate::specs::TextDecodeLaws::refused_page), unfolding(crate::specs::TextDecode::area_text_on, crate::specs::TextDecode::work_short))]
pub fn decode_disc_area_text(
    work: &[u8],
    area: Area,
    item: u32,
    mapping: &[u32],
    page: &mut [u8],
) -> Result<usize, DecodeRefusal>
    ensures answer { answer_by result ≡ text_answer (area_text_on work.now area item) mapping.now (length page.old) }
    ensures filled { page.new ≡ text_page (area_text_on work.now area item) mapping.now page.old }
{
    if work.len() < WORK_BYTES {
        return Err(DecodeRefusal::ShortBuffer);
    }
    decode_area_text(region_of(work, area.origin.slot), area, item, mapping, page)
}

// The place in the list of an area's track of a number; for 0 that of its first.
#[tactic(auto, unfolding(crate::specs::TextDecode::track_place))]
fn track_place(area: Area, number: u32) -> usize
    ensures { result ≡ track_place area number }
{
    tracks_from(area.origin.slot) as usize + number.saturating_sub(1) as usize
}

// Decodes the text that a track of a list of so many has at a place, by the track's number and the item index.
#[tactic(auto, using(crate::specs::TextDecodeLaws::short_answer, crate::specs::TextDecodeLaws::missing_answer, crate::specs::TextDecodeLaws::refused_page), unfolding(crate::specs::TextDecode::track_text_on, crate::specs::TextDecode::lent_short, crate::specs::TextDecode::work_short))]
fn decode_of_disc_track(
    work: &[u8],
    area: Area,
    room: usize,
    place: u32,
    number: u32,
    item: u32,
    mapping: &[u32],
    page: &mut [u8],
) -> Result<usize, DecodeRefusal>
    ensures answer { answer_by result ≡ text_answer (track_text_on work.now area room place number item) mapping.now (length page.old) }
    ensures filled { page.new ≡ text_page (track_text_on work.now area room place number item) mapping.now page.old }
{
    if (work.len() < WORK_BYTES) | (room < TRACK_RECORDS) {
        return Err(DecodeRefusal::ShortBuffer);
    }
    let table = region_of(work, area.origin.slot);
    decode_of_track(table, area, MAX_TRACKS, place, number, item, mapping, page)
}

// Decodes a text of a track, by its number and item index, to the start of a page.
#[tactic(auto, unfolding(crate::specs::TextDecode::track_text_at))]
pub fn decode_disc_track_text(
    work: &[u8],
    area: Area,
    tracks: &[Track],
    number: u32,
    item: u32,
    mapping: &[u32],
    page: &mut [u8],
) -> Result<usize, DecodeRefusal>
    ensures { (answer_by result ≡ text_answer (track_text_at work.now area tracks.now number item) mapping.now (length page.old))
        × (page.new ≡ text_page (track_text_at work.now area tracks.now number item) mapping.now page.old) }
{
    let place = place_at(tracks, track_place(area, number), item);
    decode_of_disc_track(work, area, tracks.len(), place, number, item, mapping, page)
}
