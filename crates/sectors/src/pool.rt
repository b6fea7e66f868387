// Two rips of one disc, both of format 2: a sector is taken from the first if its header is sound there, else from the second, else it is lost.
ghost use Rattle.std.specs.Prelude.{◌≡◌, length, Some};
ghost use Rattle.sectors.specs.Options.{is_there, given};
ghost use Rattle.sectors.specs.Source.{run_of};
ghost use Rattle.sectors.specs.Pool.{sound_in, data_place, pooled_at, pooled_start, pooled_count, pooled_source, rip_of, answer_of, which_rip, pool_of};

use crate::header::{HEADER_FORMAT, HEADER_SIZE, is_sound};
use crate::refusal::Refusal;
use crate::sector::{Image, Lsn, layout_of, sector_count, stored_data, stored_part};

// Two rips of one disc.
#[derive(Clone, Copy)]
pub struct Rips<'a> {
    pub first: &'a [u8],
    pub second: &'a [u8],
}

// One of them.
#[derive(Clone, Copy, Debug, PartialEq, Eq)]
pub enum Rip {
    First = 1,
    Second = 2,
}

// Which rip has a sector, as C has it: 0, the rip's number and the place of the data bytes in it, or zeros if it is lost; or a refusal and zeros.
#[repr(C)]
#[derive(Clone, Copy)]
pub struct PoolAnswer {
    pub refusal: u8,
    pub rip: u8,
    pub place: usize,
}

// A rip as an image.
fn raw<'a>(bytes: &'a [u8]) -> Image<'a>
    ensures { result ≡ record { format = 2; bytes = bytes.entry } }
{
    Image {
        format: HEADER_FORMAT,
        bytes,
    }
}

// Whether a rip has a sector, with a sound header.
#[tactic(auto, using(crate::proofs::PoolCases::beyond, crate::proofs::PoolCases::its_sector, crate::proofs::SectorLaws::raw2064_size, crate::proofs::PoolCases::its_length, crate::proofs::PoolCases::sound_test))]
fn is_sound_in(rip: &[u8], n: usize) -> bool
    ensures { result ≡ sound_in rip.now n }
{
    n < sector_count(HEADER_FORMAT, rip.len()) && is_sound(stored_part(raw(rip), n, 0, HEADER_SIZE))
}

// The rip that has a sector; none if it is lost.
#[tactic(auto, unfolding(crate::specs::Pool::rip_of))]
pub(crate) fn rip_of(rips: Rips, n: usize) -> Option<Rip>
    ensures { result ≡ rip_of rips.entry.first.now rips.entry.second.now n }
{
    if is_sound_in(rips.first, n) {
        Some(Rip::First)
    } else if is_sound_in(rips.second, n) {
        Some(Rip::Second)
    } else {
        None
    }
}

// The data bytes of a sector, as a part of the rip that has it.
#[tactic(auto, using(crate::proofs::PoolCases::first_there, crate::proofs::PoolCases::second_there, crate::proofs::PoolCases::first_data, crate::proofs::PoolCases::second_data, crate::proofs::PoolCases::first_start, crate::proofs::PoolCases::second_start))]
pub(crate) fn rip_data<'a>(rips: Rips<'a>, rip: Rip, n: usize) -> &'a [u8]
    requires { rip_of rips.first.now rips.second.now n ≡ Some rip }
    ensures bytes { result.now ≡ given (pooled_at rips.entry.first.now rips.entry.second.now n) }
    ensures placed { result.ref_ptr ≡ pooled_start rips.entry.first.now rips.entry.second.now n rips.entry.first.ref_ptr rips.entry.second.ref_ptr }
{
    match rip {
        Rip::First => stored_data(raw(rips.first), n),
        Rip::Second => stored_data(raw(rips.second), n),
    }
}

// The data bytes of a sector, as a part of the rip that has it; empty, at the first rip's start, if it is lost or in neither.
#[tactic(auto, using(crate::proofs::PoolCases::no_data, crate::proofs::PoolCases::no_start))]
pub fn pooled_sector<'a>(first: &'a [u8], second: &'a [u8], lsn: Lsn) -> &'a [u8]
    ensures bytes { result.now ≡ given (pooled_at first.now second.now lsn.0) }
    ensures placed { result.ref_ptr ≡ pooled_start first.now second.now lsn.0 first.entry.ref_ptr second.entry.ref_ptr }
{
    let rips = Rips { first, second };
    let n = lsn.0 as usize;
    match rip_of(rips, n) {
        Some(rip) => rip_data(rips, rip, n),
        None => &first[..0],
    }
}

// Whole sectors of the longer of two rips.
#[tactic(auto, unfolding(crate::specs::Pool::pooled_count))]
pub(crate) fn pooled_count(rips: Rips) -> usize
    ensures { result ≡ pooled_count (length rips.entry.first.now) (length rips.entry.second.now) }
{
    let first = sector_count(HEADER_FORMAT, rips.first.len());
    let second = sector_count(HEADER_FORMAT, rips.second.len());
    first.max(second)
}

// Whether each sector of a run is in a rip with a sound header.
#[tactic(auto, using(crate::proofs::Turns::pool_past))]
pub(crate) fn has_pooled_run(rips: Rips, n: usize, count: usize) -> bool
    ensures { result ≡ is_there (run_of (pooled_source rips.entry.first.now rips.entry.second.now) n count) }
{
    let sectors = pooled_count(rips);
    n <= sectors && count <= sectors - n && (n..n + count).all(|k| rip_of(rips, k).is_some())
}

// Which rip has a sector; none if it is lost.
#[tactic(auto, using(crate::proofs::PoolCases::beyond_both, crate::proofs::PoolCases::within_both), unfolding(crate::specs::Pool::pool_of))]
pub fn pool(rips: Rips, lsn: Lsn) -> Result<Option<Rip>, Refusal>
    ensures which { result ≡ which_rip rips.entry.first.now rips.entry.second.now lsn.0 }
    ensures answer { answer_of lsn.0 result ≡ pool_of rips.entry.first.now rips.entry.second.now lsn.0 }
{
    let n = lsn.0 as usize;
    if pooled_count(rips) <= n {
        return Err(Refusal::NoSuchEntry);
    }
    Ok(rip_of(rips, n))
}

// Where the data bytes of a sector begin in a rip that has it.
#[tactic(auto, unfolding(crate::specs::Pool::data_place, crate::specs::Format::stored_size, crate::specs::Format::data_offset, crate::specs::Format::layout_of))]
fn place_of(lsn: Lsn) -> usize
    ensures { result ≡ data_place lsn.0 }
{
    let layout = layout_of(HEADER_FORMAT).unwrap();
    lsn.0 as usize * layout.stored + layout.offset
}

// The numbers of an answer about a sector.
#[tactic(auto, unfolding(crate::specs::Pool::answer_of, crate::specs::Refusal::number_of))]
pub fn pool_answer(p: Result<Option<Rip>, Refusal>, lsn: Lsn) -> PoolAnswer
    ensures { result ≡ answer_of lsn.0 p }
{
    match p {
        Ok(Some(rip)) => PoolAnswer {
            refusal: 0,
            rip: rip as u8,
            place: place_of(lsn),
        },
        Ok(None) => PoolAnswer {
            refusal: 0,
            rip: 0,
            place: 0,
        },
        Err(refusal) => PoolAnswer {
            refusal: refusal.into(),
            rip: 0,
            place: 0,
        },
    }
}
