// The record of an area.
ghost use Rattle.std.specs.Prelude.{◌≡◌};
ghost use Rattle.area.specs.Area.{kind_of, kind_number, low_four, area_texts_at, record_of, addressed, no_area};
ghost use Rattle.area.specs.Locale.{locale_count};

use crate::locale::{Locale, MAX_LOCALES, locales_at, no_locale};
use crate::text_places::{AREA_TEXTS, NO_TEXT, TextPlace, text_place_at};
use crate::timecode::{Timecode, timecode_at};
use sectors::number::{be32_at, byte_at};
use sectors::sector::Lsn;
use sectors::signature::has_signature;
use std::array;

// The signatures that an area's table begins with, by number.
#[derive(Clone, Copy, Debug, PartialEq, Eq)]
pub enum Kind {
    TwoChannel = 1,
    Multichannel = 2,
}

// Where a table's track count and its audio range stand.
pub(crate) const TRACK_COUNT_OFFSET: usize = 69;

pub(crate) const AUDIO_START_OFFSET: usize = 72;

pub(crate) const AUDIO_END_OFFSET: usize = 76;

// Where the offsets of its texts stand.
const AREA_TEXTS_OFFSET: usize = 144;

// Where an area's table came from: its slot, its address and its sectors.
#[repr(C)]
#[derive(Clone, Copy, Default)]
pub struct TableOrigin {
    pub slot: u8,
    pub toc_lsn: Lsn,
    pub toc_sectors: u16,
}

// A structure version number.
#[repr(C)]
#[derive(Clone, Copy, Default)]
pub struct Version {
    pub major: u8,
    pub minor: u8,
}

// The record of an area; all zero where there is none. Flags are 0 or 1.
// As C has it: `present` where Rust has an Option, `kind` a number, 0 for neither signature, the locales beside their count.
#[repr(C)]
#[derive(Clone, Copy, Default)]
pub struct Area {
    pub present: u8,
    pub origin: TableOrigin,
    pub kind: u8,
    pub version: Version,
    pub max_byte_rate: u32,
    pub sample_frequency_code: u8,
    pub frame_format: u8,
    pub channel_count: u8,
    pub area_config: u8,
    pub max_available_channels: u8,
    pub area_mute_flags: u8,
    pub track_attribute: u8,
    pub playtime: Timecode,
    pub track_offset: u8,
    pub track_count: u16,
    pub audio_start_lsn: Lsn,
    pub audio_end_lsn: Lsn,
    pub text_channel_count: u8,
    pub locale_count: u8,
    pub locales: [Locale; MAX_LOCALES],
    pub text_charset: u8,
    pub text: [TextPlace; AREA_TEXTS],
}

// Which signature a table begins with, if either.
#[tactic(auto, unfolding(crate::specs::Area::kind_of, crate::specs::Area::kind_number))]
pub(crate) fn kind_of(table: &[u8]) -> Option<Kind>
    ensures { kind_number result ≡ kind_of table.now }
{
    if has_signature(table, 0, *b"TWOCHTOC") {
        Some(Kind::TwoChannel)
    } else if has_signature(table, 0, *b"MULCHTOC") {
        Some(Kind::Multichannel)
    } else {
        None
    }
}

// The number of a signature, 0 for neither.
#[tactic(auto, unfolding(crate::specs::Area::kind_number))]
fn kind_number(kind: Option<Kind>) -> u8
    ensures { result ≡ kind_number kind }
{
    kind.map_or(0, |kind| kind as u8)
}

// The low four bits of a byte.
#[tactic(auto, unfolding(crate::specs::Area::low_four))]
fn low_four(b: u8) -> u8
    ensures { result ≡ low_four b }
{
    b & 0x0F
}

// How many locales are listed.
#[tactic(auto, unfolding(crate::specs::Locale::locale_count))]
fn locale_count(channels: u8) -> u8
    ensures { result ≡ locale_count channels }
{
    channels.min(MAX_LOCALES as u8)
}

// The places of an area's texts.
#[tactic(auto, unfolding(crate::specs::Area::area_texts_at, crate::specs::Tabulate::tabulate))]
fn area_texts_at(table: &[u8]) -> [TextPlace; AREA_TEXTS]
    ensures { result ≡ area_texts_at table.now }
{
    array::from_fn(|item| text_place_at(table, AREA_TEXTS_OFFSET + 2 * item))
}

// The record of a table's area. (Slot, address and sectors are three numbers, as C gives them to `table_head`.)
#[tactic(auto, unfolding(crate::specs::Area::record_of, crate::specs::Area::addressed, crate::specs::Units::lsn_at))]
pub(crate) fn record_of(table: &[u8], slot: u8, lsn: Lsn, sectors: u16) -> Area
    ensures { result ≡ addressed lsn.0 (record_of table.now slot sectors) }
{
    let channels = byte_at(table, 80);
    Area {
        present: 1,
        origin: TableOrigin {
            slot,
            toc_lsn: lsn,
            toc_sectors: sectors,
        },
        kind: kind_number(kind_of(table)),
        version: Version {
            major: byte_at(table, 8),
            minor: byte_at(table, 9),
        },
        max_byte_rate: be32_at(table, 16),
        sample_frequency_code: byte_at(table, 20),
        frame_format: low_four(byte_at(table, 21)),
        channel_count: byte_at(table, 32),
        area_config: byte_at(table, 33),
        max_available_channels: byte_at(table, 34),
        area_mute_flags: byte_at(table, 35),
        track_attribute: low_four(byte_at(table, 48)),
        playtime: timecode_at(table, 64),
        track_offset: byte_at(table, 68),
        track_count: byte_at(table, TRACK_COUNT_OFFSET) as u16,
        audio_start_lsn: Lsn(be32_at(table, AUDIO_START_OFFSET)),
        audio_end_lsn: Lsn(be32_at(table, AUDIO_END_OFFSET)),
        text_channel_count: channels,
        locale_count: locale_count(channels),
        locales: locales_at(table, channels),
        text_charset: byte_at(table, 90),
        text: area_texts_at(table),
    }
}

// The record of no area.
#[tactic(auto, unfolding(crate::specs::Area::no_area, crate::specs::Locale::no_locale))]
pub fn no_area() -> Area
    ensures { result ≡ no_area }
{
    // The arrays by value: of a default with arrays of records no proof is found.
    Area {
        locales: [no_locale(); MAX_LOCALES],
        text: [NO_TEXT; AREA_TEXTS],
        ..Area::default()
    }
}
