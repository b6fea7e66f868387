// The answer of a disc reading.
ghost use Rattle.std.specs.Prelude.{◌≡◌};
ghost use Rattle.disc.specs.Disc.{refusal, silent};
ghost use Rattle.disc.specs.Outcome.{is_present};
ghost use Rattle.disc.specs.Refusal.{number_of};
ghost use Rattle.disc.specs.Steps.{read_answer, answer_from};

use crate::disc::SlotRead;
use crate::master::{MasterToc, master_of, no_master};
use crate::refusal::DiscRefusal;
use crate::regions::master_region;
use area::area::{Area, no_area};
use sectors::sector::sector_count;

// A refusal, or 0 and the records; the count of warnings and the master record with refusal 6 too.
#[repr(C)]
#[derive(Clone, Copy)]
pub struct DiscAnswer {
    pub refusal: u8,
    pub warnings: usize,
    pub sector_format: u32,
    pub sectors: usize,
    pub master: MasterToc,
    pub two_channel: Area,
    pub multichannel: Area,
}

// A refusal that reads nothing.
#[tactic(auto, unfolding(crate::specs::Disc::refusal))]
pub(crate) fn refused(reason: DiscRefusal) -> DiscAnswer
    ensures { result ≡ refusal (number_of reason) }
{
    DiscAnswer {
        refusal: reason.into(),
        warnings: 0,
        sector_format: 0,
        sectors: 0,
        master: no_master(),
        two_channel: no_area(),
        multichannel: no_area(),
    }
}

// The refusal of a disc without an area.
#[tactic(auto, unfolding(crate::specs::Disc::silent))]
fn silent(table: &[u8], warnings: usize) -> DiscAnswer
    ensures { result ≡ silent table.now warnings }
{
    DiscAnswer {
        refusal: DiscRefusal::NoAudioAreas as u8,
        warnings,
        sector_format: 0,
        sectors: 0,
        master: master_of(table),
        two_channel: no_area(),
        multichannel: no_area(),
    }
}

// The answer of an accepted disc.
#[tactic(auto, unfolding(crate::specs::Steps::read_answer))]
fn accepted(
    format: u32,
    sectors: usize,
    table: &[u8],
    first: SlotRead,
    second: SlotRead,
) -> DiscAnswer
    ensures { result ≡ read_answer format sectors table.now first second }
{
    DiscAnswer {
        refusal: 0,
        warnings: second.count,
        sector_format: format,
        sectors,
        master: master_of(table),
        two_channel: first.area,
        multichannel: second.area,
    }
}

// Whether an area was read.
#[tactic(auto, unfolding(crate::specs::Outcome::is_present))]
fn has_area(read: SlotRead) -> bool
    ensures { result ≡ is_present read.area }
{
    read.area.present == 1
}

// The answer by what was read.
#[tactic(auto, unfolding(crate::specs::Steps::answer_from))]
pub(crate) fn disc_answer(
    format: u32,
    bytes: usize,
    work: &[u8],
    first: SlotRead,
    second: SlotRead,
) -> DiscAnswer
    ensures { result ≡ answer_from format bytes work.now first second }
{
    let table = master_region(work);
    if has_area(first) | has_area(second) {
        return accepted(format, sector_count(format, bytes), table, first, second);
    }
    silent(table, second.count)
}
