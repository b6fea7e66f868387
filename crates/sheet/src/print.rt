// What is read of a disc image, written in lines.
ghost use Rattle.std.specs.Prelude.{◌≡◌, length};

use area::area::Area;
use area::table::MAX_TRACKS;
use area::track::Track;
use disc::answer::DiscAnswer;
use disc::detect::{DetectAnswer, detect_format};
use disc::regions::{TRACK_RECORDS, WARNING_WORDS, WORK_BYTES};
use disc_values::reading::{no_tracks, read_disc_by_value};
use std::io;
use std::io::Write;

// The image's format: sectors of 2,048 bytes, all data.
const PLAIN: u32 = 0;

// A line of the image's bytes, the refusal, and the sectors.
fn print_answer(out: &mut impl Write, bytes: usize, answer: &DiscAnswer) -> io::Result<()> {
    writeln!(
        out,
        "bytes {bytes} refusal {} sectors {}",
        answer.refusal, answer.sectors
    )
}

// Lines of the first warnings, so many: code, slot, track.
fn print_warnings(out: &mut impl Write, words: &[u32], count: usize) -> io::Result<()> {
    for word in words.iter().take(count) {
        let [_, code, slot, track] = word.to_be_bytes();
        writeln!(out, "warning {code} {slot} {track}")?;
    }
    Ok(())
}

// A line of a track: number, start LSN, sectors, start frame, duration.
fn print_track(out: &mut impl Write, track: &Track) -> io::Result<()> {
    writeln!(
        out,
        "track {} {} {} {} {}",
        track.number,
        track.start_lsn.0,
        track.length_sectors,
        track.times.start_frame.0,
        track.times.duration_frames.0
    )
}

// A slot's area, if there is one: slot, address, sectors and tracks; and the tracks, the first of a slot's records.
fn print_area(out: &mut impl Write, area: &Area, records: &[Track]) -> io::Result<()> {
    if area.present == 0 {
        return Ok(());
    }
    writeln!(
        out,
        "slot {} address {} sectors {} tracks {}",
        area.origin.slot, area.origin.toc_lsn.0, area.origin.toc_sectors, area.track_count
    )?;
    for track in records.iter().take(area.track_count as usize) {
        print_track(out, track)?;
    }
    Ok(())
}

// The areas of both slots, and their tracks.
fn print_areas(
    out: &mut impl Write,
    answer: &DiscAnswer,
    tracks: &[Track; TRACK_RECORDS],
) -> io::Result<()> {
    print_area(out, &answer.two_channel, &tracks[..MAX_TRACKS])?;
    print_area(out, &answer.multichannel, &tracks[MAX_TRACKS..])
}

// Work bytes of zeros.
pub(crate) fn blank_work() -> [u8; WORK_BYTES]
    ensures { 544768 ≡ length result }
{
    [0; WORK_BYTES]
}

// Reads a disc image and writes what was read.
pub(crate) fn print_reading(out: &mut impl Write, image: &[u8]) -> io::Result<()> {
    let mut work = blank_work();
    let mut words = [0u32; WARNING_WORDS];
    let reading = read_disc_by_value(PLAIN, image, &mut work, no_tracks(), &mut words);
    print_answer(out, image.len(), &reading.answer)?;
    print_warnings(out, &words, reading.answer.warnings)?;
    print_areas(out, &reading.answer, &reading.tracks)
}

// A line of how many bytes and words are lent, and the refusal of an image without a sector that is read with them.
pub(crate) fn print_refusal(out: &mut impl Write, bytes: usize, count: usize) -> io::Result<()> {
    let mut work = blank_work();
    let mut words = [0u32; WARNING_WORDS];
    let reading = read_disc_by_value(
        PLAIN,
        b"",
        &mut work[..bytes.min(WORK_BYTES)],
        no_tracks(),
        &mut words[..count.min(WARNING_WORDS)],
    );
    writeln!(
        out,
        "work {bytes} words {count} refusal {}",
        reading.answer.refusal
    )
}

// A line of the refusal and the format that are found for an image.
pub(crate) fn print_format(out: &mut impl Write, image: &[u8]) -> io::Result<()> {
    let found = DetectAnswer::from(detect_format(image));
    writeln!(
        out,
        "refusal {} format {}",
        found.refusal, found.sector_format
    )
}
