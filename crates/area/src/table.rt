// What a table gives: its area's record or the skip, and its tracks one by one, with their warnings.
ghost use Rattle.std.specs.Prelude.{◌≡◌, map, option_to_list};
ghost use Rattle.std.proofs.lemmas.List.Edits.{sets};
ghost use Rattle.area.specs.Lent.{counted};
ghost use Rattle.area.specs.Limits.{table_size, table_bytes};
ghost use Rattle.area.specs.Table.{coded, head_of, no_head, head_warnings, track_warnings, track_count, read_in};
ghost use Rattle.area.specs.Warning.{word_of};

use crate::area::{Area, no_area, record_of};
use crate::bytes::part_of;
use crate::chain::{Chain, walk};
use crate::skip::skip_of;
use crate::text_places::any_unterminated;
use crate::track::{Track, TrackRead, no_read, track_of};
use crate::warning::{Warning, WarningCode, push};
use sectors::sector::{Lsn, SECTOR_SIZE};

// Sectors of a table at most.
pub const MAX_AREA_TOC_SECTORS: usize = 128;

// Tracks of a table at most.
pub const MAX_TRACKS: usize = 255;

// The sample frequency code of DSD64.
const DSD64: u8 = 4;

// The head of a table, as C has it: the code by which it is skipped, or 0 with the area's record; and where its lists stand.
#[repr(C)]
#[derive(Clone, Copy)]
pub struct TableHead {
    pub skip: u8,
    pub area: Area,
    pub chain: Chain,
}

// A track, and the count of warning words with its own.
#[derive(Clone, Copy)]
pub struct NextTrack {
    pub track: Track,
    pub count: usize,
}

// How many bytes a table of so many sectors has; above 128 count as 128.
#[tactic(auto, unfolding(crate::specs::Limits::table_size))]
pub(crate) fn table_size(sectors: u16) -> usize
    ensures { result ≡ table_size sectors }
{
    (sectors as usize).min(MAX_AREA_TOC_SECTORS) * SECTOR_SIZE
}

// The bytes of a table of so many sectors, as a part of what is lent.
#[tactic(auto, unfolding(crate::specs::Limits::table_bytes))]
pub(crate) fn table_bytes(lent: &[u8], sectors: u16) -> &[u8]
    ensures { result.now ≡ table_bytes sectors lent.now }
{
    part_of(lent, 0, table_size(sectors))
}

// Reads the head of a table of so many sectors, at the start of what is lent.
#[tactic(auto, using(crate::specs::LimitLaws::table_bytes_small), unfolding(crate::specs::Table::head_of, crate::specs::Skip::skip_of, crate::specs::Skip::skip_number))]
pub fn table_head(lent: &[u8], slot: u8, lsn: Lsn, sectors: u16) -> TableHead
    ensures { result ≡ head_of (table_bytes sectors lent.now) slot lsn.0 sectors }
{
    let table = table_bytes(lent, sectors);
    let chain = walk(table);
    let (skip, area) = match skip_of(table, chain) {
        Some(code) => (u8::from(code), no_area()),
        None => (0, record_of(table, slot, lsn, sectors)),
    };
    TableHead { skip, area, chain }
}

// Writes the warnings of a table's head: the skip, or an unknown sample frequency.
#[tactic(auto, unfolding(crate::specs::Table::head_warnings, crate::specs::Table::frequency_warnings, crate::specs::Table::of_slot, crate::specs::Lent::when_true))]
pub fn push_head(words: &mut [u32], count: usize, slot: u8, head: TableHead) -> usize
    ensures written { words.new ≡ sets words.old count (map word_of (head_warnings slot head)) }
    ensures counted { result ≡ counted words.old count (head_warnings slot head) }
{
    let code = if head.skip != 0 {
        Some(head.skip)
    } else if head.area.sample_frequency_code != DSD64 {
        Some(WarningCode::SampleFrequencyUnknown as u8)
    } else {
        None
    };
    push(
        words,
        count,
        code.map(|code| Warning {
            code,
            slot,
            track: 0,
        }),
    )
}

// Writes the warning of a track with a code, if there is one.
#[tactic(auto, unfolding(crate::specs::Table::coded))]
fn push_code(
    words: &mut [u32],
    count: usize,
    slot: u8,
    track: u8,
    code: Option<WarningCode>,
) -> usize
    ensures written { words.new ≡ sets words.old count (map word_of (option_to_list (coded slot track code))) }
    ensures counted { result ≡ counted words.old count (option_to_list (coded slot track code)) }
{
    let warning = code.map(|code| Warning {
        code: u8::from(code),
        slot,
        track,
    });
    push(words, count, warning)
}

// Writes the warnings of a track: past the play time, outside the area, its text's, then that of a text without a zero byte.
// (One by one: as a loop over the four codes it took a table of many tracks half again as long.)
fn push_track(words: &mut [u32], count: usize, slot: u8, read: TrackRead) -> usize
    ensures written { words.new ≡ sets words.old count (map word_of (track_warnings slot read)) }
    ensures counted { result ≡ counted words.old count (track_warnings slot read) }
{
    let number = read.track.number;
    let past = read.past_playtime.then_some(WarningCode::TrackPastPlaytime);
    let outside = read
        .outside_area
        .then_some(WarningCode::TrackLsnOutsideArea);
    let unterminated = any_unterminated(read.track.text).then_some(
        WarningCode::TrackTextUnterminated,
    );
    let n = push_code(words, count, slot, number, past);
    let m = push_code(words, n, slot, number, outside);
    let k = push_code(words, m, slot, number, read.text_warning);
    push_code(words, k, slot, number, unterminated)
}

// The head of no table.
#[tactic(auto, unfolding(crate::specs::Table::no_head, crate::specs::Chain::nothing_kept))]
pub fn no_head() -> TableHead
    ensures { result ≡ no_head }
{
    TableHead {
        skip: 0,
        area: no_area(),
        chain: Chain::default(),
    }
}

// How many tracks a head has; above 255 count as 255.
#[tactic(auto, unfolding(crate::specs::Table::track_count))]
pub fn track_count(head: TableHead) -> usize
    ensures { result ≡ track_count head }
{
    (head.area.track_count as usize).min(MAX_TRACKS)
}

// The track of an index by a head, counted from 0; past the last the zero record, with no warning.
#[tactic(auto, using(crate::specs::LimitLaws::table_bytes_small), unfolding(crate::specs::Table::read_in, crate::specs::Table::track_count))]
fn read_track(lent: &[u8], head: TableHead, i: usize) -> TrackRead
    ensures { result ≡ read_in lent.now head i }
{
    if track_count(head) <= i {
        return no_read();
    }
    let table = table_bytes(lent, head.area.origin.toc_sectors);
    track_of(table, head.area, head.chain, i)
}

// The track of an index, its warnings written at a count.
pub fn next_track(
    lent: &[u8],
    head: TableHead,
    i: usize,
    words: &mut [u32],
    count: usize,
) -> NextTrack
    ensures { (result.track ≡ (read_in lent.now head i).track)
        × (result.count ≡ counted words.old count (track_warnings head.area.origin.slot (read_in lent.now head i)))
        × (words.new ≡ sets words.old count (map word_of (track_warnings head.area.origin.slot (read_in lent.now head i)))) }
{
    let read = read_track(lent, head, i);
    NextTrack {
        track: read.track,
        count: push_track(words, count, head.area.origin.slot, read),
    }
}
