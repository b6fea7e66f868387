// Disc images of format 0: a master table and area tables, in sectors that are zero otherwise.
ghost use Rattle.std.specs.Prelude.{◌≡◌, length};

use sectors::bytes::copy_bytes;
use sectors::sector::SECTOR_SIZE;

// Where the master table stands, and ends. Its copies behind it are left out.
const MASTER: u32 = 510;

pub(crate) const MASTER_END: usize = 520 * SECTOR_SIZE;

// Bytes of an image: three sectors more.
pub(crate) const IMAGE_BYTES: usize = MASTER_END + 3 * SECTOR_SIZE;

// An image of zeros. (Its length stands in the contract, since a proof that has the array before it counts its elements.)
pub(crate) fn zeros() -> [u8; IMAGE_BYTES]
    ensures { 1071104 ≡ length result }
{
    [0; IMAGE_BYTES]
}

// What the master table says of a slot; zeros if it is not used.
#[derive(Clone, Copy, Default)]
pub(crate) struct Pointer {
    pub toc1: u32,
    pub toc2: u32,
    pub sectors: u16,
}

// Stores bytes from an offset from a sector's start on, as many as are in the image.
pub(crate) fn put(image: &mut [u8], lsn: u32, offset: u32, bytes: &[u8]) {
    copy_bytes(bytes, image, lsn as usize * SECTOR_SIZE + offset as usize);
}

// Stores a big-endian number of four bytes.
pub(crate) fn put_number(image: &mut [u8], lsn: u32, offset: u32, n: u32) {
    put(image, lsn, offset, &n.to_be_bytes());
}

// Stores the master table: version 1, the slots' pointers, a manufacturer's sector.
pub(crate) fn put_master(image: &mut [u8], two_channel: Pointer, multichannel: Pointer) {
    put(image, MASTER, 0, b"SACDMTOC");
    put(image, MASTER, 8, &[1]);
    put_number(image, MASTER, 64, two_channel.toc1);
    put_number(image, MASTER, 68, two_channel.toc2);
    put_number(image, MASTER, 72, multichannel.toc1);
    put_number(image, MASTER, 76, multichannel.toc2);
    put(image, MASTER, 84, &two_channel.sectors.to_be_bytes());
    put(image, MASTER, 86, &multichannel.sectors.to_be_bytes());
    put(image, MASTER, 9 * 2048, b"SACD_Man");
}

// An area table's first sector: DSD64, a play time of 1:00:00, one track, audio from LSN 1,000 to 2,000.
fn put_head(image: &mut [u8], lsn: u32) {
    put(image, lsn, 0, b"TWOCHTOC");
    put(image, lsn, 20, &[4]);
    put(image, lsn, 64, &[1]);
    put(image, lsn, 69, &[1]);
    put_number(image, lsn, 72, 1000);
    put_number(image, lsn, 76, 2000);
}

// Its track lists, a sector each: the track begins at LSN 1,000 and has 500 sectors; it starts at 0:00:00 and lasts 1:00:00.
fn put_lists(image: &mut [u8], lsn: u32) {
    put(image, lsn, 2048, b"SACDTRL1");
    put_number(image, lsn, 2048 + 8, 1000);
    put_number(image, lsn, 2048 + 1028, 500);
    put(image, lsn, 4096, b"SACDTRL2");
    put(image, lsn, 4096 + 1028, &[1]);
}

// An area table in three sectors.
pub(crate) fn put_table(image: &mut [u8], lsn: u32) {
    put_head(image, lsn);
    put_lists(image, lsn);
}
