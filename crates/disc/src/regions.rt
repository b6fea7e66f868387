// Where tables and tracks of a disc stand in lent memory.
ghost use Rattle.std.specs.Prelude.{◌≡◌};
ghost use Rattle.sectors.specs.Fill.{part};
ghost use Rattle.disc.specs.Master.{master_bytes};
ghost use Rattle.disc.specs.Slot.{master_region, tracks_from, region_of};

use crate::master::MASTER_TOC_BYTES;
use area::bytes::part_of;
use area::lone::TABLE_WORDS;
use area::table::{MAX_AREA_TOC_SECTORS, MAX_TRACKS};
use sectors::sector::SECTOR_SIZE;

// Bytes of a slot's region.
pub(crate) const REGION_BYTES: usize = MAX_AREA_TOC_SECTORS * SECTOR_SIZE;

// Where the regions stand: two-channel, multichannel, master.
pub(crate) const TWO_CHANNEL_REGION: usize = 0;

pub(crate) const MULTICHANNEL_REGION: usize = REGION_BYTES;

pub(crate) const MASTER_REGION: usize = 2 * REGION_BYTES;

// Work bytes, track records and warning words that disc reading asks for.
pub const WORK_BYTES: usize = MASTER_REGION + MASTER_TOC_BYTES;

pub const TRACK_RECORDS: usize = 2 * MAX_TRACKS;

// Where the tracks of the multichannel slot begin.
const MULTICHANNEL_TRACKS: u32 = 255;

// Warnings of the disc at most; of a slot: of its copies, and of its table.
const MAX_DISC_WARNINGS: usize = 3;

const MAX_COPY_WARNINGS: usize = 1;

pub const WARNING_WORDS: usize = MAX_DISC_WARNINGS + 2 * (MAX_COPY_WARNINGS + TABLE_WORDS);

// The slots' numbers: numbers here too, since the records of C that are lent back hold any.
pub const TWO_CHANNEL_SLOT: u8 = 1;

pub const MULTICHANNEL_SLOT: u8 = 2;

// The region of a slot's table: the second for slot 2, else the first.
#[tactic(auto, unfolding(crate::specs::Slot::region_of, crate::specs::Slot::region_at))]
pub(crate) fn region_of<'a>(work: &'a [u8], slot: u8) -> &'a [u8]
    ensures { result.now ≡ region_of slot work.now }
{
    if slot == MULTICHANNEL_SLOT {
        return part_of(work, MULTICHANNEL_REGION, REGION_BYTES);
    }
    part_of(work, TWO_CHANNEL_REGION, REGION_BYTES)
}

// The region of the master table.
pub(crate) fn master_region<'a>(work: &'a [u8]) -> &'a [u8]
    ensures { result.now ≡ part master_region master_bytes work.now }
{
    part_of(work, MASTER_REGION, MASTER_TOC_BYTES)
}

// The place of a slot's first track: 255 for slot 2, else 0.
#[tactic(auto, unfolding(crate::specs::Slot::tracks_from, crate::specs::Slot::tracks_at))]
pub(crate) fn tracks_from(slot: u8) -> u32
    ensures { result ≡ tracks_from slot }
{
    if slot == MULTICHANNEL_SLOT {
        return MULTICHANNEL_TRACKS;
    }
    0
}
