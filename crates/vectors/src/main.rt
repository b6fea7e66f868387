// Published vectors of FNV-1a, and cards of the header audit, of mending, of the fingerprint, the texts and the areas, written one to a line.
#![tactic(auto)]

mod areas;
mod hex;
mod mends;
mod texts;

use sectors::bytes::copy_bytes;
use sectors::fnv::{FingerprintAnswer, digest, fingerprint};
use sectors::header::{HEADER_SIZE, Verdict, audit};
use sectors::run::read_sectors;
use sectors::sector::{Image, Lsn};
use std::io;
use std::io::{BufWriter, Write};

// Bytes of a sector of format 2.
pub(crate) const RAW_SIZE: usize = 2064;

// The published texts.
const TEXTS: [&str; 30] = [
    "",
    "a",
    "b",
    "c",
    "d",
    "e",
    "f",
    "fo",
    "foo",
    "foob",
    "fooba",
    "foobar",
    "ch",
    "cho",
    "chon",
    "chong",
    "chongo",
    "chongo ",
    "chongo w",
    "chongo wa",
    "chongo was",
    "chongo was ",
    "chongo was h",
    "chongo was he",
    "chongo was her",
    "chongo was here",
    "chongo was here!",
    "hi",
    "hello",
    "127.0.0.1",
];

// Headers that are audited.
const HEADERS: [[u8; HEADER_SIZE]; 6] = [
    [0x00, 0x00, 0x00, 0x01, 0x03, 0x02],
    [0x00, 0x00, 0x00, 0x01, 0x02, 0x03],
    [0x00, 0x00, 0x00, 0x00, 0x00, 0x00],
    [0x00, 0x00, 0x00, 0x00, 0x00, 0x01],
    // The top bit: with the IED of the field, and with that of another, by 1B for 1D.
    [0x00, 0x00, 0x00, 0x80, 0x9d, 0x1d],
    [0x00, 0x00, 0x00, 0x80, 0x9b, 0x1b],
];

// A line of a refusal's number; 0 for none.
pub(crate) fn refusal_line(out: &mut impl Write, refusal: u8) -> io::Result<()> {
    writeln!(out, "refused {refusal}")
}

// A line of what the audit of a sector answers.
fn audit_line(out: &mut impl Write, image: Image, lsn: u32) -> io::Result<()> {
    match audit(image, Lsn(lsn)) {
        Ok(Verdict::Sound) => writeln!(out, "sound"),
        Ok(Verdict::Blank) => writeln!(out, "blank"),
        Ok(Verdict::Unsound) => writeln!(out, "unsound"),
        Err(refusal) => refusal_line(out, refusal.into()),
    }
}

// A line of a sector's fingerprint: the refusal, and the digest.
fn fingerprint_line(out: &mut impl Write, image: Image) -> io::Result<()> {
    let answer = FingerprintAnswer::from(fingerprint(image, Lsn(0)));
    writeln!(out, "{} {:016x}", answer.refusal, answer.digest)
}

// A sector of format 2 with this header, before zeros.
pub(crate) fn raw_sector(header: [u8; HEADER_SIZE]) -> [u8; RAW_SIZE] {
    let mut sector = [0u8; RAW_SIZE];
    sector[..HEADER_SIZE].copy_from_slice(&header);
    sector
}

// Lines of digests, as 16 hexadecimal digits, and the texts that they are of.
fn digests(out: &mut impl Write) -> io::Result<()> {
    for text in TEXTS {
        writeln!(out, "{:016x} {text}", digest(text.as_bytes()))?;
    }
    Ok(())
}

// What the audit answers of the header of a format 2 image of one sector.
fn headers(out: &mut impl Write) -> io::Result<()> {
    for header in HEADERS {
        let bytes = &raw_sector(header);
        audit_line(out, Image { format: 2, bytes }, 0)?;
    }
    Ok(())
}

// A sector of 2,064 zero bytes: format 0 and 1 read one in it too.
fn refusals(out: &mut impl Write) -> io::Result<()> {
    let bytes = &[0u8; RAW_SIZE];
    for (format, lsn) in [(3, 0), (0, 0), (1, 1), (2, 1)] {
        audit_line(out, Image { format, bytes }, lsn)?;
    }
    let cut = &bytes[..RAW_SIZE - 1];
    for (format, bytes) in [
        (0, &bytes[..]),
        (1, bytes),
        (2, bytes),
        (2, cut),
        (3, bytes),
    ] {
        fingerprint_line(out, Image { format, bytes })?;
    }
    Ok(())
}

// Lines of the refusal of one sector read into as many bytes, from a place on: one byte too few from place 1.
fn reads(out: &mut impl Write) -> io::Result<()> {
    let image = Image {
        format: 0,
        bytes: &[0u8; 2048],
    };
    for at in 0..2 {
        let mut buf = [0u8; 2048];
        let read = read_sectors(image, Lsn(0), 1, &mut buf, at);
        refusal_line(out, read.map_or_else(u8::from, |()| 0))?;
    }
    Ok(())
}

// Lines of eight full stops after three bytes were copied into them, from a place on. What fits is copied; the last place is the largest number.
fn copies(out: &mut impl Write) -> io::Result<()> {
    for at in [0, 5, 6, 8, usize::MAX] {
        let mut page = *b"........";
        copy_bytes(b"abc", &mut page, at);
        out.write_all(&page)?;
        writeln!(out)?;
    }
    Ok(())
}

fn main(rt: HostRuntime) -> io::Result<()> {
    let mut out = BufWriter::new(rt.alloc(), rt.stdout())?;
    digests(&mut out)?;
    headers(&mut out)?;
    refusals(&mut out)?;
    reads(&mut out)?;
    copies(&mut out)?;
    mends::cards(&mut out)?;
    texts::cards(&mut out)?;
    areas::cards(&mut out)?;
    out.flush()
}
