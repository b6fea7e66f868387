// A lone table: read without a disc, as slot 1 with address 0.
ghost use Rattle.std.specs.Prelude.{◌≡◌, length};
ghost use Rattle.area.specs.Lone.{is_odd_table, refused, head_answer, lone_of, lone_answer, lone_tracks, lone_words};
ghost use Rattle.area.specs.Refusal.{number_of};

use crate::area::{Area, no_area};
use crate::refusal::TableRefusal;
use crate::table::{MAX_AREA_TOC_SECTORS, MAX_TRACKS, TableHead, push_head, table_head};
use crate::track::Track;
use crate::tracks::fill_tracks;
use sectors::sector::{Lsn, SECTOR_SIZE};

// The slot that a lone table counts as.
pub const LONE_SLOT: u8 = 1;

// Warnings of a table's head at most, and of a track.
const MAX_HEAD_WARNINGS: usize = 1;

const MAX_TRACK_WARNINGS: usize = 4;

// Warning words that a lone table asks for.
pub const TABLE_WORDS: usize = MAX_HEAD_WARNINGS + MAX_TRACKS * MAX_TRACK_WARNINGS;

// The answer as C has it: a refusal, or 0 and the area's record; the count of warnings, with refusal 6 too.
#[repr(C)]
#[derive(Clone, Copy)]
pub struct TableAnswer {
    pub refusal: u8,
    pub warnings: usize,
    pub area: Area,
}

impl From<TableRefusal> for TableAnswer {
    ghost from_gives = { λ refusal answer. answer ≡ lone_answer (refused (number_of refusal)) };

    #[tactic(auto, unfolding(crate::specs::Lone::lone_answer, crate::specs::Refusal::number_of))]
    fn from(refusal: TableRefusal) -> TableAnswer {
        TableAnswer {
            refusal: u8::from(refusal),
            warnings: 0,
            area: no_area(),
        }
    }
}

// Whether a table of so many bytes is none: empty, above 128 sectors, or not whole sectors.
#[tactic(auto, unfolding(crate::specs::Lone::is_odd_table))]
pub fn is_odd_table(bytes: usize) -> bool
    ensures { result ≡ is_odd_table bytes }
{
    bytes == 0 || MAX_AREA_TOC_SECTORS * SECTOR_SIZE < bytes || bytes % SECTOR_SIZE != 0
}

// The answer of a table's head, with the count of all warnings: refusal 6 of one without an area.
#[tactic(auto, unfolding(crate::specs::Lone::head_answer, crate::specs::Refusal::number_of))]
fn table_answer(head: TableHead, warnings: usize) -> TableAnswer
    ensures { result ≡ head_answer head warnings }
{
    let refusal = match head.skip {
        0 => 0,
        _ => u8::from(TableRefusal::NoAudioAreas),
    };
    TableAnswer {
        refusal,
        warnings,
        area: head.area,
    }
}

// Reads a lone table: its area's record, its tracks into a list of at least 255, its warnings into at least 1,021 words. Refusals other
// than 6 change nothing.
#[tactic(auto, using(crate::proofs::LoneLaws::sized_small), unfolding(crate::specs::Lone::lone_of, crate::specs::Lone::is_short, crate::specs::Lone::lone_tracks, crate::specs::Lone::lone_words, crate::specs::Refusal::number_of))]
pub fn read_table(table: &[u8], tracks: &mut [Track], words: &mut [u32]) -> TableAnswer
    ensures { (result ≡ lone_answer (lone_of table.now (length tracks.old) (length words.old)))
        × ((tracks.new ≡ lone_tracks (lone_of table.now (length tracks.old) (length words.old)) tracks.old)
        × (words.new ≡ lone_words (lone_of table.now (length tracks.old) (length words.old)) words.old)) }
{
    if is_odd_table(table.len()) {
        return TableAnswer::from(TableRefusal::OddTable);
    }
    if tracks.len() < MAX_TRACKS || words.len() < TABLE_WORDS {
        return TableAnswer::from(TableRefusal::ShortBuffer);
    }
    let sectors = (table.len() / SECTOR_SIZE) as u16;
    let head = table_head(table, LONE_SLOT, Lsn(0), sectors);
    let noted = push_head(words, 0, LONE_SLOT, head);
    let warnings = fill_tracks(table, head, tracks, 0, words, noted);
    table_answer(head, warnings)
}
