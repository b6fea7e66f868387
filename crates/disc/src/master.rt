// The master record, from the master table's 20,480 bytes.
ghost use Rattle.std.specs.Prelude.{◌≡◌};
ghost use Rattle.disc.specs.Master.{pointer_at, pointer_of, date_at, genres_at, locale_count, locales_at, has_text, has_manufacturer, sector_texts, disc_texts_at, manufacturer_flag, master_of, no_master};
ghost use Rattle.disc.specs.Slot.{two_channel, multichannel};

use area::area::Version;
use area::bytes::part_of;
use area::locale::{Locale, locale_or, no_locale};
use area::text_places::{NO_TEXT, TextPlace, text_place_at};
use area::track::{Genre, genre_at};
use sectors::number::{be16_at, be32_at, byte_at};
use sectors::sector::{Lsn, SECTOR_SIZE};
use sectors::signature::has_signature;
use text::fixed::{FIELD_SIZE, FixedText, fixed_bytes, fixed_text};

// Where the master table stands, and its size.
pub const MASTER_TOC_LSN: u32 = 510;

pub const MASTER_TOC_SECTORS: usize = 10;

pub const MASTER_TOC_BYTES: usize = MASTER_TOC_SECTORS * SECTOR_SIZE;

// What it begins with.
pub(crate) const MASTER_SIGNATURE: [u8; 8] = *b"SACDMTOC";

// Where the text channel count stands.
pub(crate) const TEXT_CHANNELS_OFFSET: usize = 128;

// Locales that a master record holds at most, and where they stand.
pub const MAX_DISC_LOCALES: usize = 8;

const LOCALES_OFFSET: u8 = 136;

// Texts of a disc, and where their offsets stand in the text sector.
pub const DISC_TEXTS: usize = 16;

const DISC_TEXTS_OFFSET: usize = 16;

// Genres of an album, or of a disc.
pub const GENRES: usize = 4;

// Where the manufacturer's sector stands.
const MANUFACTURER_OFFSET: usize = 9 * SECTOR_SIZE;

// What the master table says of a slot: the addresses of its table's two copies, and their sectors.
#[repr(C)]
#[derive(Clone, Copy, Default)]
pub struct AreaPointer {
    pub toc1_lsn: Lsn,
    pub toc2_lsn: Lsn,
    pub toc_sectors: u16,
}

// A date as stored.
#[repr(C)]
#[derive(Clone, Copy, Default)]
pub struct Date {
    pub year: u16,
    pub month: u8,
    pub day: u8,
}

// The master record. `manufacturer` is a flag: the bytes stand in the master table.
#[repr(C)]
#[derive(Clone, Copy)]
pub struct MasterToc {
    pub version: Version,
    pub album_set_size: u16,
    pub album_sequence_number: u16,
    pub album_catalog_number: FixedText,
    pub album_catalog_number_stored: FixedText,
    pub album_genres: [Genre; GENRES],
    pub two_channel: AreaPointer,
    pub multichannel: AreaPointer,
    pub disc_flags: u8,
    pub disc_catalog_number: FixedText,
    pub disc_catalog_number_stored: FixedText,
    pub disc_genres: [Genre; GENRES],
    pub date: Date,
    pub text_channel_count: u8,
    pub locale_count: u8,
    pub locales: [Locale; MAX_DISC_LOCALES],
    pub text_charset: u8,
    pub text: [TextPlace; DISC_TEXTS],
    pub manufacturer: u8,
}

// A slot's pointers: each number stands at its own place.
#[tactic(auto, using(area::specs::UnitLaws::lsn_at_lem), unfolding(crate::specs::Master::pointer_at))]
fn pointer_at(table: &[u8], toc1: usize, toc2: usize, sectors: usize) -> AreaPointer
    ensures { result ≡ pointer_at table.now toc1 toc2 sectors }
{
    AreaPointer {
        toc1_lsn: Lsn(be32_at(table, toc1)),
        toc2_lsn: Lsn(be32_at(table, toc2)),
        toc_sectors: be16_at(table, sectors),
    }
}

// The pointers of the two-channel slot, and of the multichannel slot.
#[tactic(auto, unfolding(crate::specs::Master::pointer_of))]
pub(crate) fn two_channel_pointer(table: &[u8]) -> AreaPointer
    ensures { result ≡ pointer_of table.now two_channel }
{
    pointer_at(table, 64, 68, 84)
}

#[tactic(auto, unfolding(crate::specs::Master::pointer_of))]
pub(crate) fn multichannel_pointer(table: &[u8]) -> AreaPointer
    ensures { result ≡ pointer_of table.now multichannel }
{
    pointer_at(table, 72, 76, 86)
}

// The date of a disc.
#[tactic(auto, unfolding(crate::specs::Master::date_at))]
fn date_at(table: &[u8]) -> Date
    ensures { result ≡ date_at table.now }
{
    Date {
        year: be16_at(table, 120),
        month: byte_at(table, 122),
        day: byte_at(table, 123),
    }
}

// Four genres from a place on.
#[tactic(auto, using(area::specs::TabulateLaws::tabulated), unfolding(crate::specs::Master::genres_at))]
fn genres_at(table: &[u8], at: u8) -> [Genre; GENRES]
    ensures { result ≡ genres_at table.now at }
{
    std::array::from_fn(|k| genre_at(table, at as usize + 4 * k))
}

// How many locales are listed.
#[tactic(auto, unfolding(crate::specs::Master::locale_count))]
fn locale_count(channels: u8) -> u8
    ensures { result ≡ locale_count channels }
{
    channels.min(MAX_DISC_LOCALES as u8)
}

// The first locales, as many as a count says and the record holds; zero past them.
#[tactic(auto, using(area::specs::TabulateLaws::tabulated), unfolding(crate::specs::Master::locales_at))]
fn locales_at(table: &[u8], count: u8) -> [Locale; MAX_DISC_LOCALES]
    ensures { result ≡ locales_at table.now count }
{
    std::array::from_fn(|k| locale_or(table, LOCALES_OFFSET, k as u8, count))
}

// Whether sector 1 is a text sector.
#[tactic(auto, unfolding(crate::specs::Master::has_text))]
pub(crate) fn has_text(table: &[u8]) -> bool
    ensures { result ≡ has_text table.now }
{
    has_signature(table, SECTOR_SIZE, *b"SACDText")
}

// Whether sector 9 is a manufacturer's.
#[tactic(auto, unfolding(crate::specs::Master::has_manufacturer))]
pub(crate) fn has_manufacturer(table: &[u8]) -> bool
    ensures { result ≡ has_manufacturer table.now }
{
    has_signature(table, MANUFACTURER_OFFSET, *b"SACD_Man")
}

// The places of a disc's texts in its text sector.
#[tactic(auto, using(area::specs::TabulateLaws::tabulated), unfolding(crate::specs::Master::sector_texts))]
fn sector_texts(sector: &[u8]) -> [TextPlace; DISC_TEXTS]
    ensures { result ≡ sector_texts sector.now }
{
    std::array::from_fn(|k| text_place_at(sector, DISC_TEXTS_OFFSET + 2 * k))
}

// The places of a disc's texts, in sector 1.
#[tactic(auto, unfolding(crate::specs::Master::disc_texts_at, crate::specs::Master::text_sector))]
fn disc_texts_at(table: &[u8]) -> [TextPlace; DISC_TEXTS]
    ensures { result ≡ disc_texts_at table.now }
{
    if !has_text(table) {
        return [NO_TEXT; DISC_TEXTS];
    }
    sector_texts(part_of(table, SECTOR_SIZE, SECTOR_SIZE))
}

// A flag: 1 if there is a manufacturer's sector.
#[tactic(auto, unfolding(crate::specs::Master::manufacturer_flag))]
fn manufacturer_flag(table: &[u8]) -> u8
    ensures { result ≡ manufacturer_flag table.now }
{
    has_manufacturer(table) as u8
}

// The master record of a master table.
#[tactic(auto, unfolding(crate::specs::Master::master_of, crate::specs::Master::major_version, crate::specs::Master::album_field, crate::specs::Master::disc_field))]
pub(crate) fn master_of(table: &[u8]) -> MasterToc
    ensures { result ≡ master_of table.now }
{
    let album = part_of(table, 24, FIELD_SIZE);
    let disc = part_of(table, 88, FIELD_SIZE);
    let channels = byte_at(table, TEXT_CHANNELS_OFFSET);
    MasterToc {
        version: Version {
            major: byte_at(table, 8),
            minor: byte_at(table, 9),
        },
        album_set_size: be16_at(table, 16),
        album_sequence_number: be16_at(table, 18),
        album_catalog_number: fixed_text(album),
        album_catalog_number_stored: fixed_bytes(album),
        album_genres: genres_at(table, 40),
        two_channel: two_channel_pointer(table),
        multichannel: multichannel_pointer(table),
        disc_flags: byte_at(table, 80),
        disc_catalog_number: fixed_text(disc),
        disc_catalog_number_stored: fixed_bytes(disc),
        disc_genres: genres_at(table, 104),
        date: date_at(table),
        text_channel_count: channels,
        locale_count: locale_count(channels),
        locales: locales_at(table, channels),
        text_charset: byte_at(table, 138),
        text: disc_texts_at(table),
        manufacturer: manufacturer_flag(table),
    }
}

// The zero record, where there is no master record.
#[tactic(auto, unfolding(crate::specs::Master::no_master, crate::specs::Master::no_pointer))]
pub(crate) fn no_master() -> MasterToc
    ensures { result ≡ no_master }
{
    // By its fields: of a default with so many no proof is found.
    let none = FixedText {
        bytes: [0u8; FIELD_SIZE],
        len: 0,
    };
    let genres = [Genre::default(); GENRES];
    MasterToc {
        version: Version { major: 0, minor: 0 },
        album_set_size: 0,
        album_sequence_number: 0,
        album_catalog_number: none,
        album_catalog_number_stored: none,
        album_genres: genres,
        two_channel: AreaPointer::default(),
        multichannel: AreaPointer::default(),
        disc_flags: 0,
        disc_catalog_number: none,
        disc_catalog_number_stored: none,
        disc_genres: genres,
        date: Date::default(),
        text_channel_count: 0,
        locale_count: 0,
        locales: [no_locale(); MAX_DISC_LOCALES],
        text_charset: 0,
        text: [NO_TEXT; DISC_TEXTS],
        manufacturer: 0,
    }
}
