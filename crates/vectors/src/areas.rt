// Cards of the areas: frame numbers, the play time, and the largest table, written one to a line.
use area::area::Area;
use area::cap::cap;
use area::decode::{decode_area_text, decode_of_track};
use area::lone::is_odd_table;
use area::table::{table_head, track_count};
use area::timecode::{Frame, Timecode, frame_number};
use sectors::bytes::copy_bytes;
use sectors::sector::Lsn;
use std::io;
use std::io::Write;
use text::decode::NO_MAPPING;

// The signatures of a two-channel table with its track lists, and their places.
const SIGNATURES: [(usize, [u8; 8]); 3] = [
    (0, *b"TWOCHTOC"),
    (2048, *b"SACDTRL1"),
    (4096, *b"SACDTRL2"),
];

// Lines of the frame numbers of timecodes.
fn frame_lines(out: &mut impl Write) -> io::Result<()> {
    for (minutes, seconds, frames) in [(0, 0, 0), (1, 0, 0), (255, 255, 255)] {
        let frame = frame_number(Timecode {
            minutes,
            seconds,
            frames,
        });
        writeln!(out, "{}", frame.0)?;
    }
    Ok(())
}

// Lines of the times that are kept under a play time of 4,500 frames, and whether they went past it.
fn cap_lines(out: &mut impl Write) -> io::Result<()> {
    for (start, duration) in [(4400, 100), (4400, 101), (4600, 0), (4500, 0)] {
        let kept = cap(Frame(start), Frame(duration), Frame(4500));
        let word = if kept.past_playtime { "warned" } else { "kept" };
        writeln!(
            out,
            "{} {} {word}",
            kept.start_frame.0, kept.duration_frames.0
        )?;
    }
    Ok(())
}

fn put_signatures(table: &mut [u8]) {
    for (place, signature) in SIGNATURES {
        copy_bytes(&signature, table, place);
    }
}

// A line of a table of 128 sectors whose start and end LSN are equal: the skip, the sectors, and the number of tracks.
fn largest_table_line(out: &mut impl Write) -> io::Result<()> {
    let mut table = [0u8; 262144];
    put_signatures(&mut table);
    table[69] = 1;
    table[72] = 9;
    table[76] = 9;
    let head = table_head(&table, 1, Lsn(0), 128);
    let tracks = track_count(head);
    writeln!(
        out,
        "{} {} {tracks}",
        head.skip, head.area.origin.toc_sectors
    )
}

// Lines of whether so many bytes are no lone table, which has up to 128 whole sectors.
fn odd_lines(out: &mut impl Write) -> io::Result<()> {
    for bytes in [0, 2047, 2048, 262144, 262145, 264192] {
        let word = if is_odd_table(bytes) { "odd" } else { "table" };
        writeln!(out, "{bytes} {word}")?;
    }
    Ok(())
}

// A line of an area's text, absent in its table, by a record that names a slot.
fn slot_line(out: &mut impl Write, table: &[u8], slot: u8) -> io::Result<()> {
    let head = table_head(table, slot, Lsn(0), 3);
    let mut page = [0u8; 8];
    let answer = decode_area_text(table, head.area, 0, &NO_MAPPING, &mut page);
    let refusal = answer.map_or_else(u8::from, |_| 0);
    writeln!(out, "slot {slot} refused {refusal}")
}

// A line of a track's text, absent too, by a record that counts 256 tracks.
fn track_line(out: &mut impl Write, table: &[u8], number: u32) -> io::Result<()> {
    let head = table_head(table, 1, Lsn(0), 3);
    let area = Area {
        track_count: 256,
        ..head.area
    };
    let mut page = [0u8; 8];
    let answer = decode_of_track(table, area, 255, 0, number, 0, &NO_MAPPING, &mut page);
    let refusal = answer.map_or_else(u8::from, |_| 0);
    writeln!(out, "track {number} refused {refusal}")
}

// Slots 1 and 2 have areas, no other; 256 tracks count as 255.
fn refused_text_lines(out: &mut impl Write) -> io::Result<()> {
    let mut table = [0u8; 6144];
    put_signatures(&mut table);
    for slot in 0..4 {
        slot_line(out, &table, slot)?;
    }
    for number in [255, 256] {
        track_line(out, &table, number)?;
    }
    Ok(())
}

pub(crate) fn cards(out: &mut impl Write) -> io::Result<()> {
    frame_lines(out)?;
    cap_lines(out)?;
    largest_table_line(out)?;
    odd_lines(out)?;
    refused_text_lines(out)
}
