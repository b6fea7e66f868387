// The tracks of an area in a lent list.
ghost use Rattle.std.specs.Prelude.{◌≡◌, map, set, get_or};
ghost use Rattle.std.proofs.lemmas.List.Edits.{sets};
ghost use Rattle.area.specs.Lent.{counted};
ghost use Rattle.area.specs.Table.{tracks_in, warnings_in};
ghost use Rattle.area.specs.TextDecode.{place_of};
ghost use Rattle.area.specs.Track.{no_track};
ghost use Rattle.area.specs.Warning.{word_of};

use crate::table::{TableHead, next_track, track_count};
use crate::track::{Track, no_track, text_place};

// Stores a track in a list, if its place is there.
fn put_track(tracks: &mut [Track], at: usize, track: Track)
    ensures { tracks.new ≡ set tracks.old at track }
{
    // By its index: of a slice that lent by `get_mut` a proof knows no element afterwards.
    if at < tracks.len() {
        tracks[at] = track;
    }
}

// The track at a place of a list; the zero record past its end.
pub fn track_at(tracks: &[Track], at: usize) -> Track
    ensures { result ≡ get_or tracks.now at no_track }
{
    tracks.get(at).copied().unwrap_or_else(no_track)
}

// Where the text of an item index of the track at a place of a list stands; 0 past the list's end.
#[tactic(auto, using(crate::proofs::TextDecodeLaws::no_track_place))]
pub fn place_at(tracks: &[Track], at: usize, item: u32) -> u32
    ensures { result ≡ place_of (get_or tracks.now at no_track).text item }
{
    tracks.get(at).map_or(0, |track| text_place(track, item))
}

// Fills a list with the tracks of a table from a place on, and words with their warnings from a count on: the count of words then.
// What does not fit is not written.
#[tactic(auto, using(crate::proofs::Filling::one_more))]
pub fn fill_tracks(
    lent: &[u8],
    head: TableHead,
    tracks: &mut [Track],
    base: u32,
    words: &mut [u32],
    count: usize,
) -> usize
    ensures { (result ≡ counted words.old count (warnings_in lent.now head))
        × ((tracks.new ≡ sets tracks.old base (tracks_in lent.now head))
        × (words.new ≡ sets words.old count (map word_of (warnings_in lent.now head)))) }
{
    let mut written = count;
    for i in 0..track_count(head) {
        let next = next_track(lent, head, i, words, written);
        put_track(tracks, base as usize + i, next.track);
        written = next.count;
    }
    written
}
