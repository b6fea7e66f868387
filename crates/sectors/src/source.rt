// What is read from: one image in a format, or two rips of one disc. Its sectors, and runs of them.
ghost use Rattle.std.specs.Prelude.{◌≡◌, ◌+◌, ◌*◌, ◌≤◌, true, length, take};
ghost use Rattle.sectors.specs.Options.{is_there, given};
ghost use Rattle.sectors.specs.Bytes.{same};
ghost use Rattle.sectors.specs.Fill.{fill};
ghost use Rattle.sectors.specs.Format.{sector_size};
ghost use Rattle.sectors.specs.Source.{run_of};
ghost use Rattle.sectors.specs.Pool.{source_of, source_start};
ghost use Rattle.sectors.specs.Run.{run_into, run_unequal};

use crate::bytes::copy_bytes;
use crate::pool::{Rips, has_pooled_run, pooled_count, pooled_sector, rip_data, rip_of};
use crate::sector::{
    Image, Lsn, SECTOR_SIZE, contains, has_room, sector_count, sector_data, stored_data,
};

// One image, or two rips of one disc.
#[derive(Clone, Copy)]
pub enum Source<'a> {
    Image(Image<'a>),
    Rips(Rips<'a>),
}

// The sectors of an image, or of two rips.
#[tactic(auto, using(crate::proofs::SourceLaws::image_count), unfolding(crate::specs::Pool::source_of, crate::specs::Pool::pooled_source))]
pub fn source_count(source: Source) -> usize
    ensures { result ≡ (source_of source.entry).count }
{
    match source {
        Source::Image(image) => sector_count(image.format, image.bytes.len()),
        Source::Rips(rips) => pooled_count(rips),
    }
}

// The data bytes of a sector, as a part of what it is read from; empty if it is not there.
#[tactic(auto, using(crate::proofs::SourceLaws::image_given), unfolding(crate::specs::Pool::source_of, crate::specs::Pool::pooled_source, crate::specs::Pool::source_start))]
pub fn source_sector<'a>(source: Source<'a>, lsn: Lsn) -> &'a [u8]
    ensures bytes { result.now ≡ given ((source_of source.entry).at lsn.0) }
    ensures placed { result.ref_ptr ≡ source_start source.entry lsn.0 }
{
    match source {
        Source::Image(image) => sector_data(image, lsn),
        Source::Rips(rips) => pooled_sector(rips.first, rips.second, lsn),
    }
}

// The data bytes of a sector that is there. (Inlined: so a loop over a run asks once which source it is.)
#[inline(always)]
#[tactic(auto, using(crate::proofs::SourceLaws::image_has, crate::proofs::SourceLaws::image_given, crate::proofs::SectorLaws::sector_length, crate::proofs::PoolLaws::source_size, crate::proofs::PoolCases::has_any), unfolding(crate::specs::Pool::source_of, crate::specs::Pool::pooled_source))]
fn source_data<'a>(source: Source<'a>, n: usize) -> &'a [u8]
    requires { is_there ((source_of source).at n) ≡ true }
    ensures bytes { result.now ≡ given ((source_of source.entry).at n) }
    ensures size { length result.now ≡ sector_size }
{
    match source {
        Source::Image(image) => stored_data(image, n),
        Source::Rips(rips) => rip_data(rips, rip_of(rips, n).unwrap(), n),
    }
}

// Whether a run of sectors is there.
#[tactic(auto, using(crate::proofs::SourceLaws::image_there), unfolding(crate::specs::Pool::source_of))]
pub fn has_run(source: Source, lsn: Lsn, count: usize) -> bool
    ensures { result ≡ is_there (run_of (source_of source.entry) lsn.0 count) }
{
    match source {
        Source::Image(image) => contains(image.format, image.bytes.len(), lsn, count),
        Source::Rips(rips) => has_pooled_run(rips, lsn.0 as usize, count),
    }
}

// Copies a run that is there into a buffer that has the room.
#[tactic(auto, using(crate::proofs::SourceLaws::there_each, crate::proofs::Turns::copy_start))]
pub(crate) fn copy_run(source: Source, lsn: Lsn, count: usize, buf: &mut [u8], at: usize)
    requires { (is_there (run_of (source_of source) lsn.0 count) ≡ true) × (at + count * sector_size ≤ length buf.old) }
    ensures { buf.new ≡ fill at (given (run_of (source_of source.entry) lsn.0 count)) buf.old }
{
    for k in 0..count {
        let data = source_data(source, lsn.0 as usize + k);
        let to = at + k * SECTOR_SIZE;
        copy_bytes(data, &mut buf[to..to + SECTOR_SIZE], 0);
    }
}

// Whether a run that is there has the bytes that are lent, from the first on.
#[tactic(auto, using(crate::proofs::SourceLaws::there_each, crate::proofs::Turns::same_start))]
pub(crate) fn same_run(source: Source, lsn: Lsn, count: usize, bytes: &[u8]) -> bool
    requires { (is_there (run_of (source_of source) lsn.0 count) ≡ true) × (count * sector_size ≤ length bytes.now) }
    ensures { result ≡ same (given (run_of (source_of source.entry) lsn.0 count)) (take (count * sector_size) bytes.now) }
{
    for k in 0..count {
        let data = source_data(source, lsn.0 as usize + k);
        let to = k * SECTOR_SIZE;
        if data != &bytes[to..to + SECTOR_SIZE] {
            return false;
        }
    }
    true
}

// Copies a run into a buffer, from a place on, if it is there and there is room.
#[tactic(auto, unfolding(crate::specs::Run::run_into))]
pub fn read_run(source: Source, lsn: Lsn, count: usize, buf: &mut [u8], at: usize)
    ensures { buf.new ≡ run_into (source_of source.entry) lsn.0 count at buf.old }
{
    if has_room(count, at, buf.len()) && has_run(source, lsn, count) {
        copy_run(source, lsn, count, buf, at);
    }
}

// Whether a run that is there differs from as many lent bytes.
#[tactic(auto, unfolding(crate::specs::Run::run_unequal))]
pub fn run_differs(source: Source, lsn: Lsn, count: usize, bytes: &[u8]) -> bool
    ensures { result ≡ run_unequal (source_of source.entry) lsn.0 count bytes.now }
{
    has_room(count, 0, bytes.len())
        && has_run(source, lsn, count)
        && !same_run(source, lsn, count, bytes)
}
