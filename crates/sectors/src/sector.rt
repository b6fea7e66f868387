// Stored sectors of an image: how many there are, which are readable, and their data bytes.
ghost use Rattle.std.specs.Prelude.{◌≡◌, ◌+◌, ◌*◌, ◌≤◌, true, length, nat_le};
ghost use Rattle.sectors.specs.Fill.{part, start_at};
ghost use Rattle.sectors.specs.Format.{foreign, layout_of, stored_size, data_offset, sector_size};
ghost use Rattle.sectors.specs.Sector.{sector_count, readable, sector_data, data_start, begins_with};

use crate::signature::has_signature;

// Bytes of data in a sector.
pub const SECTOR_SIZE: usize = 2048;

// A sector address.
#[repr(C)]
#[derive(Clone, Copy, Default)]
pub struct Lsn(pub u32);

// The bytes of an image, and the format that it stores its sectors in: a number, since the calls take any from C.
#[derive(Clone, Copy)]
pub struct Image<'a> {
    pub format: u32,
    pub bytes: &'a [u8],
}

// How a sector is stored: in so many bytes, with its data from an offset on.
#[derive(Clone, Copy)]
pub(crate) struct Layout {
    pub stored: usize,
    pub offset: usize,
}

// How sectors are stored in a format; none for a foreign one.
#[tactic(auto, unfolding(crate::specs::Format::layout_of))]
pub(crate) fn layout_of(format: u32) -> Option<Layout>
    ensures { result ≡ layout_of format }
{
    match format {
        0 => Some(Layout {
            stored: 2048,
            offset: 0,
        }),
        1 => Some(Layout {
            stored: 2054,
            offset: 6,
        }),
        2 => Some(Layout {
            stored: 2064,
            offset: 12,
        }),
        _ => None,
    }
}

// Whether a format is none of `Plain`, `Raw2054`, `Raw2064`.
pub fn is_foreign(format: u32) -> bool
    ensures { result ≡ foreign format }
{
    layout_of(format).is_none()
}

// Whole sectors in so many bytes; none in a foreign format.
#[tactic(auto, using(crate::proofs::Places::none_stored, crate::proofs::Places::is_stored, crate::proofs::Places::stored_is), unfolding(crate::specs::Sector::sector_count))]
pub fn sector_count(format: u32, bytes: usize) -> usize
    ensures { result ≡ sector_count format bytes }
{
    let Some(layout) = layout_of(format) else {
        return 0;
    };
    bytes / layout.stored
}

// Whether so many sectors from an address on are readable in an image of so many bytes.
#[tactic(auto, using(crate::proofs::SectorLaws::not_readable), unfolding(crate::specs::Sector::readable))]
pub fn contains(format: u32, bytes: usize, lsn: Lsn, count: usize) -> bool
    ensures { result ≡ readable format bytes lsn.0 count }
{
    let sectors = sector_count(format, bytes);
    let first = lsn.0 as usize;
    first <= sectors && count <= sectors - first
}

// Whether so many sectors fit from a place on into so many bytes.
pub(crate) fn has_room(count: usize, at: usize, size: usize) -> bool
    ensures { result ≡ nat_le (at + count * sector_size) size }
{
    at <= size && count <= (size - at) / SECTOR_SIZE
}

// A part of a stored sector that is in the image.
#[tactic(auto, using(crate::proofs::Places::has_layout))]
pub(crate) fn stored_part<'a>(image: Image<'a>, n: usize, offset: usize, size: usize) -> &'a [u8]
    requires { (readable image.format (length image.bytes.now) n 1 ≡ true) × (offset + size ≤ stored_size image.format) }
    ensures bytes { result.now ≡ part (n * stored_size image.entry.format + offset) size image.entry.bytes.now }
    ensures placed { result.ref_ptr ≡ start_at image.entry.bytes.ref_ptr (n * stored_size image.entry.format + offset) }
{
    let layout = layout_of(image.format).unwrap();
    let start = n * layout.stored + offset;
    let end = start + size;
    &image.bytes[start..end]
}

// The data bytes of a sector that is in the image, as a part of it.
#[tactic(auto, using(crate::proofs::Places::has_layout, crate::proofs::Places::offset_is, crate::proofs::SectorLaws::data_fits, crate::proofs::SectorLaws::sector_is))]
pub(crate) fn stored_data<'a>(image: Image<'a>, n: usize) -> &'a [u8]
    requires { readable image.format (length image.bytes.now) n 1 ≡ true }
    ensures bytes { result.now ≡ sector_data image.entry.format image.entry.bytes.now n }
    ensures placed { result.ref_ptr ≡ start_at image.entry.bytes.ref_ptr (n * stored_size image.entry.format + data_offset image.entry.format) }
{
    let layout = layout_of(image.format).unwrap();
    stored_part(image, n, layout.offset, SECTOR_SIZE)
}

// The data bytes of a sector, as a part of the image; empty, at its start, if it is not in the image.
#[tactic(auto, using(crate::proofs::SectorLaws::sector_missing, crate::proofs::SectorLaws::data_starts, crate::proofs::SectorLaws::data_missing, crate::specs::FillLaws::start_whole))]
pub fn sector_data<'a>(image: Image<'a>, lsn: Lsn) -> &'a [u8]
    ensures bytes { result.now ≡ sector_data image.entry.format image.entry.bytes.now lsn.0 }
    ensures placed { result.ref_ptr ≡ start_at image.entry.bytes.ref_ptr (data_start image.entry.format (length image.entry.bytes.now) lsn.0) }
{
    if contains(image.format, image.bytes.len(), lsn, 1) {
        return stored_data(image, lsn.0 as usize);
    }
    &image.bytes[..0]
}

// Whether a signature stands where the data of a sector begin, whether the sector is whole or not; false in a foreign format.
#[tactic(auto, using(crate::proofs::Places::none_foreign, crate::proofs::Places::some_known, crate::proofs::Places::stored_is, crate::proofs::Places::offset_is, crate::proofs::Places::place_fits), unfolding(crate::specs::Sector::begins_with))]
pub fn begins_with(image: Image, lsn: Lsn, signature: [u8; 8]) -> bool
    ensures { result ≡ begins_with image.entry.format image.entry.bytes.now lsn.0 signature }
{
    let Some(layout) = layout_of(image.format) else {
        return false;
    };
    let place = lsn.0 as usize * layout.stored + layout.offset;
    has_signature(image.bytes, place, signature)
}
