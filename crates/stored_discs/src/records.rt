// The records of an answer, all their numbers in order on a line each.
use crate::numbers::{put, put_bytes};
use area::area::Area;
use area::locale::Locale;
use area::text_places::TextPlace;
use area::timecode::Timecode;
use area::track::{Genre, Track, TrackTimes};
use disc::master::{AreaPointer, Date, MasterToc};
use std::io;
use std::io::Write;
use text::fixed::FixedText;

fn put_fixed_text(out: &mut impl Write, text: &FixedText) -> io::Result<()> {
    put(out, text.len)?;
    put_bytes(out, &text.bytes)
}

fn put_genre(out: &mut impl Write, genre: &Genre) -> io::Result<()> {
    write!(out, " {} {}", genre.category, genre.index)
}

fn put_genres(out: &mut impl Write, genres: &[Genre]) -> io::Result<()> {
    for genre in genres {
        put_genre(out, genre)?;
    }
    Ok(())
}

fn put_pointer(out: &mut impl Write, pointer: &AreaPointer) -> io::Result<()> {
    write!(
        out,
        " {} {} {}",
        pointer.toc1_lsn.0, pointer.toc2_lsn.0, pointer.toc_sectors
    )
}

fn put_date(out: &mut impl Write, date: &Date) -> io::Result<()> {
    write!(out, " {} {} {}", date.year, date.month, date.day)
}

fn put_locales(out: &mut impl Write, locales: &[Locale]) -> io::Result<()> {
    for locale in locales {
        put(out, locale.language.len)?;
        put_bytes(out, &locale.language.bytes)?;
        put_bytes(out, &locale.language_code)?;
        put(out, locale.charset)?;
    }
    Ok(())
}

// Writes how texts ended. Where they stand is not written: the Rust has no places.
fn put_ends(out: &mut impl Write, texts: &[TextPlace]) -> io::Result<()> {
    for text in texts {
        put(out, text.end)?;
    }
    Ok(())
}

// What a master record has of the album.
fn put_album(out: &mut impl Write, master: &MasterToc) -> io::Result<()> {
    put(out, master.version.major)?;
    put(out, master.version.minor)?;
    put(out, master.album_set_size)?;
    put(out, master.album_sequence_number)?;
    put_fixed_text(out, &master.album_catalog_number)?;
    put_fixed_text(out, &master.album_catalog_number_stored)?;
    put_genres(out, &master.album_genres)
}

// Writes the line of a master record.
pub(crate) fn put_master(out: &mut impl Write, master: &MasterToc) -> io::Result<()> {
    write!(out, "master")?;
    put_album(out, master)?;
    put_pointer(out, &master.two_channel)?;
    put_pointer(out, &master.multichannel)?;
    put(out, master.disc_flags)?;
    put_fixed_text(out, &master.disc_catalog_number)?;
    put_fixed_text(out, &master.disc_catalog_number_stored)?;
    put_genres(out, &master.disc_genres)?;
    put_date(out, &master.date)?;
    put(out, master.text_channel_count)?;
    put(out, master.locale_count)?;
    put_locales(out, &master.locales)?;
    put(out, master.text_charset)?;
    put_ends(out, &master.text)?;
    put(out, master.manufacturer)?;
    writeln!(out)
}

fn put_timecode(out: &mut impl Write, time: &Timecode) -> io::Result<()> {
    write!(out, " {} {} {}", time.minutes, time.seconds, time.frames)
}

// What an area's record has of its table, and of its audio.
fn put_format(out: &mut impl Write, area: &Area) -> io::Result<()> {
    put(out, area.present)?;
    put(out, area.origin.slot)?;
    put(out, area.origin.toc_lsn.0)?;
    put(out, area.origin.toc_sectors)?;
    put(out, area.kind)?;
    put(out, area.version.major)?;
    put(out, area.version.minor)?;
    put(out, area.max_byte_rate)?;
    put(out, area.sample_frequency_code)?;
    put(out, area.frame_format)
}

fn put_audio(out: &mut impl Write, area: &Area) -> io::Result<()> {
    put(out, area.channel_count)?;
    put(out, area.area_config)?;
    put(out, area.max_available_channels)?;
    put(out, area.area_mute_flags)?;
    put(out, area.track_attribute)?;
    put_timecode(out, &area.playtime)?;
    put(out, area.track_offset)?;
    put(out, area.track_count)?;
    put(out, area.audio_start_lsn.0)?;
    put(out, area.audio_end_lsn.0)
}

// Writes the line of an area's record.
pub(crate) fn put_area(out: &mut impl Write, area: &Area) -> io::Result<()> {
    write!(out, "area")?;
    put_format(out, area)?;
    put_audio(out, area)?;
    put(out, area.text_channel_count)?;
    put(out, area.locale_count)?;
    put_locales(out, &area.locales)?;
    put(out, area.text_charset)?;
    put_ends(out, &area.text)?;
    writeln!(out)
}

fn put_times(out: &mut impl Write, times: &TrackTimes) -> io::Result<()> {
    put(out, times.start_frame.0)?;
    put(out, times.duration_frames.0)?;
    put_timecode(out, &times.stored_start)?;
    put_timecode(out, &times.stored_duration)
}

// Writes the line of a track.
pub(crate) fn put_track(out: &mut impl Write, track: &Track) -> io::Result<()> {
    write!(out, "track")?;
    put(out, track.number)?;
    put(out, track.start_lsn.0)?;
    put(out, track.length_sectors)?;
    put_times(out, &track.times)?;
    put(out, track.start_flags)?;
    put(out, track.duration_flags)?;
    put(out, track.has_isrc)?;
    put_fixed_text(out, &track.isrc)?;
    put(out, track.has_genre)?;
    put_genre(out, &track.genre)?;
    put_ends(out, &track.text)?;
    writeln!(out)
}
