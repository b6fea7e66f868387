// The stored discs on standard input, each with the answer of its reading: what the Rust answered for them is the file stdout.
//
// A disc is its format, its name in 28 bytes, and its image as runs. A number is four bytes, big-endian.
#![tactic(auto)]

mod numbers;
mod records;
mod texts;

ghost use Rattle.std.specs.Prelude.{◌≡◌, length};

use crate::records::{put_area, put_master, put_track};
use crate::texts::{put_area_texts, put_disc_texts, put_track_texts};
use area::area::Area;
use area::table::MAX_TRACKS;
use area::track::Track;
use disc::answer::DiscAnswer;
use disc::regions::{WARNING_WORDS, WORK_BYTES};
use disc_values::reading::{Reading, no_tracks, read_disc_by_value};
use inputs::closed::ClosedIsEmpty;
use inputs::full::read_full;
use inputs::runs::read_runs;
use sectors::fnv::digest;
use sectors::number::be32_at;
use std::io;
use std::io::{BufReader, BufWriter, Read, Write};
use text::string::string_bytes;

// More discs than are stored.
const MAX_DISCS: u64 = 1000000;

// Bytes of a disc's format and name, and where the name stands.
const HEAD_BYTES: usize = 32;

const NAME_OFFSET: usize = 4;

// Bytes of an image at most.
const IMAGE_BYTES: usize = 1500000;

// What every work byte is before a disc is read.
const UNREAD: u8 = 90;

// Writes the lines of the first warnings, so many: code, slot and track.
fn put_warnings(out: &mut impl Write, words: &[u32], count: usize) -> io::Result<()> {
    for word in words.iter().take(count) {
        let [_, code, slot, track] = word.to_be_bytes();
        write!(out, "warning")?;
        writeln!(out, " {code} {slot} {track}")?;
    }
    Ok(())
}

// Writes an area with its texts and its tracks, the first of a slot's records, each with its texts.
fn put_slot(
    out: &mut impl Write,
    work: &[u8],
    reading: &Reading,
    area: &Area,
    records: &[Track],
) -> io::Result<()> {
    put_area(out, area)?;
    if area.present == 0 {
        return Ok(());
    }
    put_area_texts(out, work, area)?;
    for (number, track) in (1..).zip(records.iter().take(area.track_count as usize)) {
        put_track(out, track)?;
        put_track_texts(out, work, area, &reading.tracks, number)?;
    }
    Ok(())
}

// Writes the first line of a disc.
fn put_head(out: &mut impl Write, name: &[u8], answer: &DiscAnswer) -> io::Result<()> {
    write!(out, "disc ")?;
    out.write_all(name)?;
    writeln!(
        out,
        " {} {} {} {}",
        answer.refusal, answer.warnings, answer.sector_format, answer.sectors
    )
}

// Writes the records of a reading, with their texts and tracks.
fn put_records(out: &mut impl Write, work: &[u8], reading: &Reading) -> io::Result<()> {
    let answer = &reading.answer;
    put_master(out, &answer.master)?;
    put_disc_texts(out, work, &answer.master)?;
    let (first, second) = reading.tracks.split_at(MAX_TRACKS);
    put_slot(out, work, reading, &answer.two_channel, first)?;
    put_slot(out, work, reading, &answer.multichannel, second)
}

// Work bytes as they are before a disc is read. (Their length stands in the contract, since a proof that has the array before it counts its
// elements.)
fn unread() -> [u8; WORK_BYTES]
    ensures { 544768 ≡ length result }
{
    [UNREAD; WORK_BYTES]
}

// Reads a disc and writes its name and its answer, and the digest of the work bytes.
fn put_disc(out: &mut impl Write, name: &[u8], format: u32, image: &[u8]) -> io::Result<()> {
    let mut work = unread();
    let mut words = [0u32; WARNING_WORDS];
    let reading = read_disc_by_value(format, image, &mut work, no_tracks(), &mut words);
    put_head(out, name, &reading.answer)?;
    put_warnings(out, &words, reading.answer.warnings)?;
    put_records(out, &work, &reading)?;
    write!(out, "work")?;
    writeln!(out, " {}", digest(&work))
}

// An image of zeros.
fn zeros() -> [u8; IMAGE_BYTES]
    ensures { 1500000 ≡ length result }
{
    [0u8; IMAGE_BYTES]
}

// Reads the next disc on standard input and writes its answer; whether there was one.
fn replay_next(input: &mut impl Read, out: &mut impl Write) -> io::Result<bool> {
    let mut head = [0u8; HEAD_BYTES];
    if read_full(input, &mut head)? < HEAD_BYTES {
        return Ok(false);
    }
    let mut image = zeros();
    let Some(len) = read_runs(input, &mut image)? else {
        return Ok(false);
    };
    let name = string_bytes(&head, NAME_OFFSET);
    put_disc(out, name, be32_at(&head, 0), &image[..len])?;
    Ok(true)
}

fn main(rt: HostRuntime) -> io::Result<()> {
    let mut input = BufReader::new(rt.alloc(), ClosedIsEmpty(rt.stdin()))?;
    let mut out = BufWriter::new(rt.alloc(), rt.stdout())?;
    for _ in 0..MAX_DISCS {
        if !replay_next(&mut input, &mut out)? {
            break;
        }
    }
    out.flush()
}
