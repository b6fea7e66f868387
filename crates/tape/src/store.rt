// A format 2 image gathered for the tape store, all heads, all data, all tails, and scattered again. One pass over the image, sector by sector.
ghost use Rattle.std.specs.Prelude.{◌≡◌, ◌+◌, ◌*◌, ◌≤◌, ◌<◌, length};
ghost use Rattle.sectors.specs.Fill.{part, fill};
ghost use Rattle.tape.specs.Store.{raw_size, unequal_lengths, refusal_of, lengths_refusal, gather_into, scatter_into, Restores};
ghost use Rattle.tape.specs.Steps.{piece_copied, sector_copied, image_copied};

use sectors::bytes::copy_bytes;
use sectors::header::HEADER_FORMAT;
use sectors::sector::{SECTOR_SIZE, sector_count};

// The number of the refusal of two buffers that are not of equal length.
pub const UNEQUAL_LENGTHS: u8 = 20;

// That refusal.
#[derive(Clone, Copy, Debug, PartialEq, Eq)]
pub struct UnequalLengths;

impl From<UnequalLengths> for u8 {
    ghost from_gives = { λ _ n. n ≡ unequal_lengths };

    fn from(_refusal: UnequalLengths) -> u8 {
        UNEQUAL_LENGTHS
    }
}

// Which of a piece's two places is read, and which is written. It is a value, and no closure over the two places: the contracts name it.
#[derive(Clone, Copy)]
enum Way {
    Gather,
    Scatter,
}

// A piece of a stored sector: how many bytes stand before it, and its own.
#[derive(Clone, Copy)]
struct Piece {
    offset: usize,
    size: usize,
}

const HEAD: Piece = Piece {
    offset: 0,
    size: 12,
};

const DATA: Piece = Piece {
    offset: HEAD.size,
    size: SECTOR_SIZE,
};

const TAIL: Piece = Piece {
    offset: DATA.offset + DATA.size,
    size: 4,
};

// Bytes of a stored sector: its three pieces.
const RAW_SIZE: usize = TAIL.offset + TAIL.size;

// Copies so many bytes from a place to a place.
#[tactic(auto, using(crate::proofs::Fills::copied))]
fn copy_part(from: &[u8], at: usize, to: &mut [u8], place: usize, size: usize)
    requires read { at + size ≤ length from.now }
    requires written { place + size ≤ length to.old }
    ensures { to.new ≡ fill place (part at size from.now) to.old }
{
    copy_bytes(&from[at..at + size], &mut to[place..place + size], 0);
}

// Copies a piece of sector k of n. (No struct of the two buffers, n and k: this function and the next alone share them.)
#[tactic(auto, using(crate::proofs::StoreLaws::place_inside), unfolding(crate::specs::Steps::piece_copied, crate::specs::Store::piece_from, crate::specs::Store::piece_of))]
fn copy_piece(from: &[u8], to: &mut [u8], n: usize, k: usize, piece: Piece, way: Way)
    requires sector { k < n }
    requires whole { n * raw_size ≤ length from.now }
    requires piece { piece.offset + piece.size ≤ raw_size }
    requires as_long { length to.old ≡ length from.now }
    ensures { to.new ≡ piece_copied way n k piece.offset piece.size from.now to.old }
{
    let stored = k * RAW_SIZE + piece.offset;
    let gathered = n * piece.offset + k * piece.size;
    match way {
        Way::Gather => copy_part(from, stored, to, gathered, piece.size),
        Way::Scatter => copy_part(from, gathered, to, stored, piece.size),
    }
}

// Copies sector k of n: its head, its data and its tail.
#[tactic(auto, unfolding(crate::specs::Steps::sector_copied))]
fn copy_sector(from: &[u8], to: &mut [u8], n: usize, k: usize, way: Way)
    requires sector { k < n }
    requires whole { n * raw_size ≤ length from.now }
    requires as_long { length to.old ≡ length from.now }
    ensures { to.new ≡ sector_copied way n k from.now to.old }
{
    copy_piece(from, to, n, k, HEAD, way);
    copy_piece(from, to, n, k, DATA, way);
    copy_piece(from, to, n, k, TAIL, way);
}

// Copies all sectors, and the rest as it came. A refusal changes nothing.
#[tactic(auto, using(crate::proofs::StoreLaws::whole_sectors, crate::proofs::Turns::copying), unfolding(crate::specs::Store::refusal_of))]
fn copy_image(from: &[u8], to: &mut [u8], way: Way) -> Result<(), UnequalLengths>
    ensures refusal { refusal_of result ≡ lengths_refusal (length from.now) (length to.old) }
    ensures written { to.new ≡ image_copied way from.now to.old }
{
    let size = from.len();
    if to.len() != size {
        return Err(UnequalLengths);
    }
    let n = sector_count(HEADER_FORMAT, size);
    for k in 0..n {
        copy_sector(from, to, n, k, way);
    }
    let whole = n * RAW_SIZE;
    copy_part(from, whole, to, whole, size - whole);
    Ok(())
}

// Writes all heads of a format 2 image, then all data, then all tails, then the rest as it came. A refusal changes nothing.
#[tactic(auto, using(crate::proofs::StoreLaws::gather_restored), unfolding(crate::specs::Steps::image_copied))]
pub fn gather_sectors(image: &[u8], out: &mut [u8]) -> Result<(), UnequalLengths>
    ensures refusal { refusal_of result ≡ lengths_refusal (length image.now) (length out.old) }
    ensures written { out.new ≡ gather_into image.now out.old }
    ensures restored { result ≡ Ok tt → Restores scatter_into image.now out.new }
{
    copy_image(image, out, Way::Gather)
}

// The way back: writes the image whose gathered bytes these are. A refusal changes nothing.
#[tactic(auto, using(crate::proofs::StoreLaws::scatter_restored), unfolding(crate::specs::Steps::image_copied))]
pub fn scatter_sectors(bytes: &[u8], out: &mut [u8]) -> Result<(), UnequalLengths>
    ensures refusal { refusal_of result ≡ lengths_refusal (length bytes.now) (length out.old) }
    ensures written { out.new ≡ scatter_into bytes.now out.old }
    ensures restored { result ≡ Ok tt → Restores gather_into bytes.now out.new }
{
    copy_image(bytes, out, Way::Scatter)
}
