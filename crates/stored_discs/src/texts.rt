// The texts of a disc, of its areas and of their tracks: those that are there, on a line each.
use area::area::Area;
use area::text_places::{AREA_TEXTS, TRACK_TEXTS};
use area::track::Track;
use disc::decode::{decode_disc_area_text, decode_disc_text};
use disc::master::{DISC_TEXTS, MasterToc};
use disc::regions::TRACK_RECORDS;
use disc_values::reading::decode_track_text_by_value;
use sectors::fnv::digest;
use std::io;
use std::io::Write;
use text::decode::{DecodeAnswer, DecodeRefusal, NO_MAPPING};

// A page that has room for every text: 4,096 characters of at most two bytes.
const TEXT_PAGE: usize = 8192;

// Writes the line of a text that is there: its item index, the refusal, the length and the digest.
fn put_text(out: &mut impl Write, item: u32, answer: DecodeAnswer, page: &[u8]) -> io::Result<()> {
    if answer.refusal == 0 && answer.len == 0 {
        return Ok(());
    }
    let text = &page[..answer.len.min(page.len())];
    write!(out, "text")?;
    writeln!(
        out,
        " {item} {} {} {}",
        answer.refusal,
        answer.len,
        digest(text)
    )
}

// Writes the lines of so many texts, which are decoded by their item indexes.
fn put_texts<D: Fn(u32, &mut [u8]) -> Result<usize, DecodeRefusal> + Drop>(
    out: &mut impl Write,
    items: u32,
    decode: D,
) -> io::Result<()>
    requires { D.IsAlwaysCallable decode }
{
    for item in 0..items {
        let mut page = [0u8; TEXT_PAGE];
        let answer = DecodeAnswer::from(decode(item, &mut page));
        put_text(out, item, answer, &page)?;
    }
    Ok(())
}

// Writes the lines of a disc's texts.
pub(crate) fn put_disc_texts(
    out: &mut impl Write,
    work: &[u8],
    master: &MasterToc,
) -> io::Result<()> {
    put_texts(out, DISC_TEXTS as u32, |item, page| {
        decode_disc_text(work, *master, item, &NO_MAPPING, page)
    })
}

// Writes the lines of an area's texts.
pub(crate) fn put_area_texts(out: &mut impl Write, work: &[u8], area: &Area) -> io::Result<()> {
    put_texts(out, AREA_TEXTS as u32, |item, page| {
        decode_disc_area_text(work, *area, item, &NO_MAPPING, page)
    })
}

// Writes the lines of a track's texts.
pub(crate) fn put_track_texts(
    out: &mut impl Write,
    work: &[u8],
    area: &Area,
    tracks: &[Track; TRACK_RECORDS],
    number: u32,
) -> io::Result<()> {
    put_texts(out, TRACK_TEXTS as u32, |item, page| {
        decode_track_text_by_value(work, *area, *tracks, number, item, &NO_MAPPING, page)
    })
}
