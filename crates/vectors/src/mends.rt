// Cards of mending: the header that a header mends to, as 12 hexadecimal digits, or the refusal, written one to a line.
use crate::hex::Hex;
use crate::{RAW_SIZE, raw_sector, refusal_line};
use sectors::header::HEADER_SIZE;
use sectors::mend::mend;
use sectors::sector::{Image, Lsn};
use std::io;
use std::io::Write;

// A header beyond mending: zero at 1 alone.
const BEYOND: [u8; HEADER_SIZE] = [0x00, 0x00, 0x00, 0x01, 0x02, 0x03];

// Headers that are mended.
const HEADERS: [[u8; HEADER_SIZE]; 14] = [
    // A bad byte at each of the six places of 00 00 00 01 03 02, and that itself.
    [0x80, 0x00, 0x00, 0x01, 0x03, 0x02],
    [0x00, 0xff, 0x00, 0x01, 0x03, 0x02],
    [0x00, 0x00, 0x01, 0x01, 0x03, 0x02],
    [0x00, 0x00, 0x00, 0x81, 0x03, 0x02],
    [0x00, 0x00, 0x00, 0x01, 0x00, 0x02],
    [0x00, 0x00, 0x00, 0x01, 0x03, 0xfd],
    [0x00, 0x00, 0x00, 0x01, 0x03, 0x02],
    // The blank header, and with its first and its last byte set.
    [0x00, 0x00, 0x00, 0x00, 0x00, 0x00],
    [0x01, 0x00, 0x00, 0x00, 0x00, 0x00],
    [0x00, 0x00, 0x00, 0x00, 0x00, 0x01],
    // Zero at 1 alone, at α alone, and at neither, all beyond mending.
    BEYOND,
    [0x00, 0x00, 0x00, 0x00, 0x01, 0x02],
    [0x00, 0x00, 0x00, 0x00, 0x01, 0x03],
    // Two bytes set in a blank header, which is nearer to another.
    [0x00, 0x00, 0x00, 0x00, 0x03, 0x02],
];

// A line of what mending the header of a sector answers.
fn mend_line(out: &mut impl Write, image: Image, lsn: u32) -> io::Result<()> {
    match mend(image, Lsn(lsn)) {
        Ok(header) => writeln!(out, "{}", Hex(&header)),
        Err(refusal) => refusal_line(out, refusal.into()),
    }
}

// The header of a format 2 image of one sector, mended.
fn mended(out: &mut impl Write) -> io::Result<()> {
    for header in HEADERS {
        let bytes = &raw_sector(header);
        mend_line(out, Image { format: 2, bytes }, 0)?;
    }
    Ok(())
}

// A header beyond mending, asked for in formats 3 and 1 behind the end, in format 0, and in format 2 behind the end.
fn refusals(out: &mut impl Write) -> io::Result<()> {
    let bytes = &raw_sector(BEYOND);
    for (format, lsn) in [(3, 1), (1, 1), (0, 0), (2, 1)] {
        mend_line(out, Image { format, bytes }, lsn)?;
    }
    Ok(())
}

// A blank header of a sector that is cut by a byte.
fn cut(out: &mut impl Write) -> io::Result<()> {
    let bytes = &[0u8; RAW_SIZE - 1];
    mend_line(out, Image { format: 2, bytes }, 0)
}

pub(crate) fn cards(out: &mut impl Write) -> io::Result<()> {
    mended(out)?;
    refusals(out)?;
    cut(out)
}
