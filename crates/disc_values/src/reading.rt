// A disc's reading with its list of tracks by value. Only these functions lend the list.
ghost use Rattle.std.specs.Prelude.{◌≡◌, length, replicate};
ghost use Rattle.area.specs.TextDecode.{text_answer, text_page};
ghost use Rattle.area.specs.Track.{no_track};
ghost use Rattle.disc.specs.Disc.{read_disc};
ghost use Rattle.disc.specs.Slot.{track_records};
ghost use Rattle.disc.specs.TextDecode.{track_text_at};
ghost use Rattle.text.specs.Decode.{answer_by};

use area::area::Area;
use area::track::{Track, no_track};
use disc::answer::DiscAnswer;
use disc::decode::decode_disc_track_text;
use disc::disc::read_disc;
use disc::regions::TRACK_RECORDS;
use text::decode::DecodeRefusal;

// What a reading gives: the answer, and the list of tracks.
#[derive(Clone, Copy)]
pub struct Reading {
    pub answer: DiscAnswer,
    pub tracks: [Track; TRACK_RECORDS],
}

// A list of zero records.
pub fn no_tracks() -> [Track; TRACK_RECORDS]
    ensures { result ≡ replicate track_records no_track }
{
    [no_track(); TRACK_RECORDS]
}

// Reads a disc with a list of tracks.
pub fn read_disc_by_value(
    format: u32,
    image: &[u8],
    work: &mut [u8],
    tracks: [Track; TRACK_RECORDS],
    words: &mut [u32],
) -> Reading
    ensures { (result.answer ≡ (read_disc format image.now (record { work = work.old; tracks = tracks; words = words.old })).answer)
        × ((work.new ≡ (read_disc format image.now (record { work = work.old; tracks = tracks; words = words.old })).memory.work)
        × ((result.tracks ≡ (read_disc format image.now (record { work = work.old; tracks = tracks; words = words.old })).memory.tracks)
        × (words.new ≡ (read_disc format image.now (record { work = work.old; tracks = tracks; words = words.old })).memory.words))) }
{
    let mut list = tracks;
    let answer = read_disc(format, image, work, &mut list, words);
    Reading {
        answer,
        tracks: list,
    }
}

// Decodes a text of a track, by its number and item index, to the start of a page.
pub fn decode_track_text_by_value(
    work: &[u8],
    area: Area,
    tracks: [Track; TRACK_RECORDS],
    number: u32,
    item: u32,
    mapping: &[u32],
    page: &mut [u8],
) -> Result<usize, DecodeRefusal>
    ensures { (answer_by result ≡ text_answer (track_text_at work.now area tracks number item) mapping.now (length page.old))
        × (page.new ≡ text_page (track_text_at work.now area tracks number item) mapping.now page.old) }
{
    decode_disc_track_text(work, area, &tracks, number, item, mapping, page)
}
