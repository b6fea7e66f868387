// What is fetched from an image: the master table and each slot's chosen copy into their regions, and what is known of the copies.
ghost use Rattle.std.specs.Prelude.{◌≡◌, true, false, cond, ◌+◌, ◌≤◌, length};
ghost use Rattle.sectors.specs.Fill.{fill};
ghost use Rattle.sectors.specs.Format.{foreign};
ghost use Rattle.sectors.specs.Run.{read_into};
ghost use Rattle.sectors.specs.Sector.{readable, run_data};
ghost use Rattle.sectors.specs.Source.{image_source};
ghost use Rattle.area.specs.Limits.{max_table_bytes};
ghost use Rattle.disc.specs.Copies.{copies_of, chosen, bytes_of};
ghost use Rattle.disc.specs.Disc.{image_master, master_copies_differ, work_after};
ghost use Rattle.disc.specs.Master.{master_lsn, master_sectors, master_bytes};
ghost use Rattle.disc.specs.Refusal.{refused_by};
ghost use Rattle.disc.specs.Slot.{work_bytes};
ghost use Rattle.disc.specs.Steps.{sector_refusal, refusal_of, run_differs, second_differs, fetched_of};

use crate::copies::{SlotCopies, chosen_lsn, first_readable, second_readable};
use crate::master::{
    AreaPointer, MASTER_SIGNATURE, MASTER_TOC_LSN, MASTER_TOC_SECTORS, multichannel_pointer,
    two_channel_pointer,
};
use crate::refusal::DiscRefusal;
use crate::regions::{
    MASTER_REGION, MULTICHANNEL_REGION, REGION_BYTES, TRACK_RECORDS, TWO_CHANNEL_REGION,
    WARNING_WORDS, WORK_BYTES, master_region,
};
use sectors::number::byte_at;
use sectors::run::{compare_sectors, read_sectors};
use sectors::sector::{Image, Lsn, contains, is_foreign, sector_data};
use sectors::signature::has_signature;

// The addresses of the master table's copies.
const SECOND_MASTER_LSN: u32 = 520;

const THIRD_MASTER_LSN: u32 = 530;

// The largest major version that is read, and where a master table has its own.
const MAX_MAJOR_VERSION: u8 = 1;

const MAJOR_VERSION_OFFSET: usize = 8;

// What a fetch finds: whether a copy of the master table differs from it, and what is known of each slot's copies.
#[derive(Clone, Copy)]
pub(crate) struct Fetched {
    pub differ: bool,
    pub first: SlotCopies,
    pub second: SlotCopies,
}

// Refuses a master table by its first sector.
#[tactic(auto, unfolding(crate::specs::Refusal::refused_by, crate::specs::Refusal::number_of, crate::specs::Steps::sector_refusal, crate::specs::Master::is_scarlet_book, crate::specs::Master::is_newer, crate::specs::Master::major_version))]
fn check_master(sector: &[u8]) -> Result<(), DiscRefusal>
    ensures { refused_by result ≡ sector_refusal sector.now }
{
    if !has_signature(sector, 0, MASTER_SIGNATURE) {
        return Err(DiscRefusal::NotScarletBook);
    }
    if MAX_MAJOR_VERSION < byte_at(sector, MAJOR_VERSION_OFFSET) {
        return Err(DiscRefusal::VersionUnsupported);
    }
    Ok(())
}

// Refuses a disc by the first of refusals 1 to 5 that applies.
#[tactic(auto, using(crate::specs::FetchLaws::refusal_foreign, crate::specs::FetchLaws::refusal_short, crate::specs::FetchLaws::refusal_cut, crate::specs::FetchLaws::refusal_sector), unfolding(crate::specs::Refusal::refused_by, crate::specs::Refusal::number_of, crate::specs::Disc::is_short))]
pub(crate) fn check_disc(
    image: Image,
    work: usize,
    records: usize,
    words: usize,
) -> Result<(), DiscRefusal>
    ensures { refused_by result ≡ refusal_of (image_master image.entry.format image.entry.bytes.now work records words) }
{
    if is_foreign(image.format) {
        return Err(DiscRefusal::ForeignFormat);
    }
    if (work < WORK_BYTES) | (records < TRACK_RECORDS) | (words < WARNING_WORDS) {
        return Err(DiscRefusal::ShortBuffer);
    }
    let master = Lsn(MASTER_TOC_LSN);
    if !contains(image.format, image.bytes.len(), master, MASTER_TOC_SECTORS) {
        return Err(DiscRefusal::MasterTocTruncated);
    }
    check_master(sector_data(image, master))
}

// Whether a readable run of sectors differs from as many lent bytes.
#[tactic(auto, using(sectors::proofs::ComparisonLaws::found_unequal, sectors::proofs::ComparisonLaws::found_refused), unfolding(crate::specs::Steps::run_differs))]
fn run_differs(image: Image, lsn: Lsn, sectors: usize, bytes: &[u8]) -> bool
    ensures { result ≡ run_differs image.entry.format image.entry.bytes.now lsn.0 sectors bytes.now }
{
    matches!(compare_sectors(image, lsn, sectors, bytes), Ok(false))
}

// Whether a readable copy of the master table differs from it.
#[tactic(auto, using(crate::specs::FetchLaws::master_copies_differ_lem))]
fn master_copies_differ(image: Image, table: &[u8]) -> bool
    requires { (foreign image.format ≡ false) × (length table.now ≡ master_bytes) }
    ensures { result ≡ master_copies_differ (image_source image.entry.format image.entry.bytes.now) table.now }
{
    run_differs(image, Lsn(SECOND_MASTER_LSN), MASTER_TOC_SECTORS, table)
        | run_differs(image, Lsn(THIRD_MASTER_LSN), MASTER_TOC_SECTORS, table)
}

// Whether a slot's second copy differs from lent bytes, if both copies are there.
#[tactic(auto, unfolding(crate::specs::Steps::second_differs))]
fn second_differs(image: Image, both: bool, pointer: AreaPointer, region: &[u8]) -> bool
    ensures { result ≡ second_differs image.entry.format image.entry.bytes.now both pointer region.now }
{
    if !both {
        return false;
    }
    run_differs(
        image,
        pointer.toc2_lsn,
        pointer.toc_sectors as usize,
        region,
    )
}

// Copies a run of sectors into the work bytes from a place on, if it is there.
fn fetch_copy(image: Image, there: bool, lsn: Lsn, sectors: u16, work: &mut [u8], at: usize)
    ensures { work.new ≡ cond there (read_into image.entry.format image.entry.bytes.now lsn.0 sectors at work.old) work.old }
{
    if there {
        let _ = read_sectors(image, lsn, sectors as usize, work, at);
    }
}

// Fetches the chosen copy of a slot into its region, from a place on: what is known of both copies.
fn fetch_slot(image: Image, pointer: AreaPointer, work: &mut [u8], at: usize) -> SlotCopies
    requires { (foreign image.format ≡ false) × (at + max_table_bytes ≤ length work.old) }
    ensures known { result ≡ copies_of (image_source image.entry.format image.entry.bytes.now) pointer }
    ensures filled { work.new ≡ fill at (bytes_of (chosen (image_source image.entry.format image.entry.bytes.now) pointer)) work.old }
{
    let toc1 = first_readable(image.format, image.bytes.len(), pointer);
    let toc2 = second_readable(image.format, image.bytes.len(), pointer);
    let lsn = chosen_lsn(pointer, toc1);
    fetch_copy(image, toc1 | toc2, lsn, pointer.toc_sectors, work, at);
    let differ = second_differs(image, toc1 & toc2, pointer, &work[at..at + REGION_BYTES]);
    SlotCopies {
        pointer,
        toc1,
        toc2,
        differ,
    }
}

// Fetches the master table and the chosen copies into their regions.
pub(crate) fn fetch(image: Image, work: &mut [u8]) -> Fetched
    requires { (readable image.format (length image.bytes.now) master_lsn master_sectors ≡ true) × (work_bytes ≤ length work.old) }
    ensures known { result ≡ fetched_of (image_source image.entry.format image.entry.bytes.now) (run_data image.entry.format image.entry.bytes.now master_lsn master_sectors) }
    ensures filled { work.new ≡ work_after (image_source image.entry.format image.entry.bytes.now) (run_data image.entry.format image.entry.bytes.now master_lsn master_sectors) work.old }
{
    let _ = read_sectors(
        image,
        Lsn(MASTER_TOC_LSN),
        MASTER_TOC_SECTORS,
        work,
        MASTER_REGION,
    );
    let table = master_region(work);
    let differ = master_copies_differ(image, table);
    let two_channel = two_channel_pointer(table);
    let multichannel = multichannel_pointer(table);
    let first = fetch_slot(image, two_channel, work, TWO_CHANNEL_REGION);
    let second = fetch_slot(image, multichannel, work, MULTICHANNEL_REGION);
    Fetched {
        differ,
        first,
        second,
    }
}
