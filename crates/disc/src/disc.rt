// Disc reading from one lent image.
ghost use Rattle.std.specs.Prelude.{◌≡◌, map, length, IfOk, OnOk, OnErr};
ghost use Rattle.std.proofs.lemmas.List.Edits.{sets};
ghost use Rattle.area.specs.Warning.{word_of};
ghost use Rattle.sectors.specs.Sector.{run_data};
ghost use Rattle.sectors.specs.Source.{image_source};
ghost use Rattle.disc.specs.Disc.{image_master, work_after, read_disc};
ghost use Rattle.disc.specs.Master.{master_lsn, master_sectors};
ghost use Rattle.disc.specs.Refusal.{refused_by};
ghost use Rattle.disc.specs.Steps.{refusal_of, opened_of, opened_words, slot_read_of, slot_read_by, slot_tracks, slot_notes};
ghost use Rattle.disc.specs.Slot.{tracks_from};

use crate::answer::{DiscAnswer, disc_answer, refused};
use crate::copies::SlotCopies;
use crate::fetch::{check_disc, fetch};
use crate::judge::{SlotPlan, plan_slot, push_disc};
use crate::refusal::DiscRefusal;
use crate::regions::{MULTICHANNEL_SLOT, TWO_CHANNEL_SLOT, master_region, region_of, tracks_from};
use area::area::Area;
use area::track::Track;
use area::tracks::fill_tracks;
use sectors::sector::Image;

// What is known once the master table is read: the count of the disc's warnings, and what is known of each slot's copies.
#[derive(Clone, Copy)]
pub(crate) struct Opened {
    pub count: usize,
    pub first: SlotCopies,
    pub second: SlotCopies,
}

// What a slot gives: the count of warnings then, and the area's record.
#[derive(Clone, Copy)]
pub(crate) struct SlotRead {
    pub count: usize,
    pub area: Area,
}

// Refuses a disc, or fetches its tables into their regions and writes the disc's warnings.
#[tactic(auto, unfolding(crate::specs::Refusal::refused_by))]
pub(crate) fn open(
    image: Image,
    work: &mut [u8],
    records: usize,
    words: &mut [u32],
) -> Result<Opened, DiscRefusal>
    ensures refused { refused_by result ≡ refusal_of (image_master image.entry.format image.entry.bytes.now (length work.old) records (length words.old)) }
    ensures opened { IfOk result (λ o. o ≡ opened_of (image_source image.entry.format image.entry.bytes.now) (run_data image.entry.format image.entry.bytes.now master_lsn master_sectors)) }
    ensures filled { OnOk result (work.new ≡ work_after (image_source image.entry.format image.entry.bytes.now) (run_data image.entry.format image.entry.bytes.now master_lsn master_sectors) work.old) }
    ensures warned { OnOk result (words.new ≡ opened_words (image_source image.entry.format image.entry.bytes.now) (run_data image.entry.format image.entry.bytes.now master_lsn master_sectors) words.old) }
    ensures kept { OnErr result ((work.new ≡ work.old) × (words.new ≡ words.old)) }
{
    check_disc(image, work.len(), records, words.len())?;
    let fetched = fetch(image, work);
    let count = push_disc(words, fetched.differ, master_region(work));
    Ok(Opened {
        count,
        first: fetched.first,
        second: fetched.second,
    })
}

// What a slot gives, by its plan and the count of all its warnings.
#[tactic(auto, unfolding(crate::specs::Steps::slot_read_of))]
pub(crate) fn slot_read(plan: SlotPlan, count: usize) -> SlotRead
    ensures { result ≡ slot_read_of plan count }
{
    SlotRead {
        count,
        area: plan.head.area,
    }
}

// Reads a slot from its region: its area's record, its tracks into their places, its warnings from a count on.
fn read_slot(
    work: &[u8],
    slot: u8,
    copies: SlotCopies,
    tracks: &mut [Track],
    words: &mut [u32],
    count: usize,
) -> SlotRead
    ensures { (result ≡ slot_read_by work.now slot copies words.old count)
        × ((tracks.new ≡ sets tracks.old (tracks_from slot) (slot_tracks work.now slot copies))
        × (words.new ≡ sets words.old count (map word_of (slot_notes work.now slot copies)))) }
{
    let plan = plan_slot(work, slot, copies, words, count);
    let n = fill_tracks(
        region_of(work, slot),
        plan.head,
        tracks,
        tracks_from(slot),
        words,
        plan.count,
    );
    slot_read(plan, n)
}

// Reads a disc: its master record and the records of its areas, its tables into the work bytes, its tracks into a list, its warnings into
// words. Refusals 1 to 5 change nothing; 6 gives the warning count and the master record. (Image and format stand apart, as in C and in the
// theorems of `Consequences` on this very contract.)
pub fn read_disc(
    format: u32,
    image: &[u8],
    work: &mut [u8],
    tracks: &mut [Track],
    words: &mut [u32],
) -> DiscAnswer
    ensures { (result ≡ (read_disc format image.now (record { work = work.old; tracks = tracks.old; words = words.old })).answer)
        × ((work.new ≡ (read_disc format image.now (record { work = work.old; tracks = tracks.old; words = words.old })).memory.work)
        × ((tracks.new ≡ (read_disc format image.now (record { work = work.old; tracks = tracks.old; words = words.old })).memory.tracks)
        × (words.new ≡ (read_disc format image.now (record { work = work.old; tracks = tracks.old; words = words.old })).memory.words))) }
{
    let image = Image {
        format,
        bytes: image,
    };
    let opened = match open(image, work, tracks.len(), words) {
        Ok(opened) => opened,
        Err(refusal) => return refused(refusal),
    };
    let tables: &[u8] = work;
    let first = read_slot(
        tables,
        TWO_CHANNEL_SLOT,
        opened.first,
        tracks,
        words,
        opened.count,
    );
    let second = read_slot(
        tables,
        MULTICHANNEL_SLOT,
        opened.second,
        tracks,
        words,
        first.count,
    );
    disc_answer(format, image.bytes.len(), tables, first, second)
}
