// What C and Rust link: the functions of the layers below, under names that begin `scarletbook_`. Each hands an answer on.
#![tactic(auto)]

ghost use Rattle.std.specs.Prelude.{◌≡◌, ◌↔◌, List, [], ◌∷◌, ℕ, ◌*◌, ◌%◌, ◌^◌, length, OnOk, IfErr};
ghost use Rattle.area.specs.Cap.{cap_of};
ghost use Rattle.area.specs.Items.{draw_at};
ghost use Rattle.area.specs.Limits.{table_bytes};
ghost use Rattle.area.specs.Lone.{lone_of, lone_answer, lone_tracks, lone_words};
ghost use Rattle.area.specs.Table.{head_of};
ghost use Rattle.area.specs.TextDecode.{area_text_in, track_text_by, text_answer, text_page};
ghost use Rattle.area.specs.Timecode.{frame_number};
ghost use Rattle.disc.specs.Detect.{detected};
ghost use Rattle.disc.specs.Disc.{read_disc};
ghost use Rattle.disc.specs.TextDecode.{disc_text_in, area_text_on, track_text_at};
ghost use Rattle.sectors.specs.Audit.{HeaderIn, sound_verdict, blank_verdict, unsound_verdict, audit_of, header_at};
ghost use Rattle.sectors.specs.Header.{Sound, Blank, Unsound};
ghost use Rattle.sectors.specs.Fnv.{digest_of, fingerprint_of};
ghost use Rattle.sectors.specs.Mend.{Mends, Mendable, BeyondMending, OneByteChanged, mended_to, mend_of};
ghost use Rattle.sectors.specs.Number.{be_at};
ghost use Rattle.sectors.specs.Refusal.{beyond_mending};
ghost use Rattle.sectors.specs.Run.{read_refusal, read_into, comparison_of};
ghost use Rattle.sectors.specs.Sector.{sector_count, readable};
ghost use Rattle.tape.specs.Store.{lengths_refusal, gather_into, scatter_into, Restores};
ghost use Rattle.text.specs.Charset.{charset_of};
ghost use Rattle.text.specs.Decode.{decode_of, decode_into};
ghost use Rattle.text.specs.Fixed.{fixed_bytes_of, fixed_text_of};
ghost use Rattle.text.specs.Language.{language_of};
ghost use Rattle.text.specs.String.{string_at, end_of};
ghost use Rattle.scarletbook.specs.Answers.{cap_answer, draw_answer};

use area::area::Area;
use area::cap::Capped;
use area::items::Drawn;
use area::lone::TableAnswer;
use area::table::TableHead;
use area::timecode::{Frame, Timecode};
use area::track::Track;
use disc::answer::DiscAnswer;
use disc::detect::DetectAnswer;
use disc::master::MasterToc;
use sectors::fnv::FingerprintAnswer;
use sectors::header::AuditAnswer;
use sectors::mend::Mended;
use sectors::run::Comparison;
use sectors::sector::{Image, Lsn};
use text::decode::DecodeAnswer;
use text::fixed::FixedText;
use text::language::LanguageCode;

// The byte at a place of a table; 0 past its end.
#[unsafe(no_mangle)]
pub extern "C" fn scarletbook_byte_at(table: &[u8], at: usize) -> u8
    ensures { result ≡ be_at table.now at 1 }
{
    sectors::number::byte_at(table, at)
}

// The number in two bytes from a place on, each 0 past the table's end.
#[unsafe(no_mangle)]
pub extern "C" fn scarletbook_be16_at(table: &[u8], at: usize) -> u16
    ensures { result ≡ be_at table.now at 2 }
{
    sectors::number::be16_at(table, at)
}

// The number in four bytes from a place on, each 0 past the table's end.
#[unsafe(no_mangle)]
pub extern "C" fn scarletbook_be32_at(table: &[u8], at: usize) -> u32
    ensures { result ≡ be_at table.now at 4 }
{
    sectors::number::be32_at(table, at)
}

// Whole sectors in so many bytes.
#[unsafe(no_mangle)]
pub extern "C" fn scarletbook_sector_count(format: u32, bytes: usize) -> usize
    ensures { result ≡ sector_count format bytes }
{
    sectors::sector::sector_count(format, bytes)
}

// Whether so many sectors from an address on are readable in so many bytes.
#[unsafe(no_mangle)]
pub extern "C" fn scarletbook_contains(format: u32, bytes: usize, lsn: Lsn, count: usize) -> bool
    ensures { result ≡ readable format bytes lsn.0 count }
{
    sectors::sector::contains(format, bytes, lsn, count)
}

// Copies the data bytes of a run of sectors into a buffer, from a place on. A refusal changes nothing.
#[tactic(auto, using(sectors::proofs::RefusalLaws::number_is))]
#[unsafe(no_mangle)]
pub extern "C" fn scarletbook_read_sectors(
    format: u32,
    image: &[u8],
    lsn: Lsn,
    count: usize,
    buf: &mut [u8],
    at: usize,
) -> u8
    ensures refusal { result ≡ read_refusal format (length image.now) lsn.0 count at (length buf.old) }
    ensures filled { buf.new ≡ read_into format image.now lsn.0 count at buf.old }
{
    let image = Image {
        format,
        bytes: image,
    };
    refusal_number(sectors::run::read_sectors(image, lsn, count, buf, at))
}

// Compares the data bytes of a run of sectors with as many lent bytes.
#[unsafe(no_mangle)]
pub extern "C" fn scarletbook_compare_sectors(
    format: u32,
    image: &[u8],
    lsn: Lsn,
    count: usize,
    bytes: &[u8],
) -> Comparison
    ensures { result ≡ comparison_of format image.now lsn.0 count bytes.now }
{
    let image = Image {
        format,
        bytes: image,
    };
    sectors::run::compare_sectors(image, lsn, count, bytes).into()
}

// The low 64 bits of a product.
#[unsafe(no_mangle)]
pub extern "C" fn scarletbook_wrapping_mul(a: u64, b: u64) -> u64
    ensures { result ≡ a * b % 2 ^ 64 }
{
    sectors::fnv::wrapping_mul(a, b)
}

// The digest of bytes: FNV-1a, 64 bits.
#[unsafe(no_mangle)]
pub extern "C" fn scarletbook_digest(bytes: &[u8]) -> u64
    ensures { result ≡ digest_of bytes.now }
{
    sectors::fnv::digest(bytes)
}

// The digest of a sector's data bytes.
#[unsafe(no_mangle)]
pub extern "C" fn scarletbook_fingerprint(format: u32, image: &[u8], lsn: Lsn) -> FingerprintAnswer
    ensures { result ≡ fingerprint_of format image.now lsn.0 }
{
    let image = Image {
        format,
        bytes: image,
    };
    sectors::fnv::fingerprint(image, lsn).into()
}

// Audits the header of a sector, in the numbers of the answer.
#[unsafe(no_mangle)]
pub extern "C" fn scarletbook_audit(format: u32, image: &[u8], lsn: Lsn) -> AuditAnswer
    ensures answer { result ≡ audit_of format image.now lsn.0 }
    ensures sound { (result.verdict ≡ sound_verdict) ↔ HeaderIn Sound format image.now lsn.0 }
    ensures blank { (result.verdict ≡ blank_verdict) ↔ HeaderIn Blank format image.now lsn.0 }
    ensures unsound { (result.verdict ≡ unsound_verdict) ↔ HeaderIn Unsound format image.now lsn.0 }
{
    let image = Image {
        format,
        bytes: image,
    };
    sectors::header::audit(image, lsn).into()
}

// Mends the header of a sector: the multiple of the polynomial that differs from it in at most one place. The image is not written.
#[unsafe(no_mangle)]
pub extern "C" fn scarletbook_mend(format: u32, image: &[u8], lsn: Lsn) -> Mended
    ensures answer { result ≡ mend_of format image.now lsn.0 }
    ensures mendable { (result.refusal ≡ 0) ↔ HeaderIn Mendable format image.now lsn.0 }
    ensures mends { result.refusal ≡ 0 → Mends (header_at image.now lsn.0) result.header }
    ensures beyond { (result.refusal ≡ beyond_mending) ↔ HeaderIn BeyondMending format image.now lsn.0 }
    ensures comes_back { (g : List ℕ) → HeaderIn (OneByteChanged g) format image.now lsn.0 → result ≡ mended_to g }
{
    let image = Image {
        format,
        bytes: image,
    };
    sectors::mend::mend(image, lsn).into()
}

// The number of an answer: its refusal's, 0 for none.
fn refusal_number<E: Into<u8>>(answer: Result<(), E>) -> u8
    ensures none { OnOk answer (result ≡ 0) }
    ensures refused { IfErr answer (λ refusal. E.converts refusal result) }
{
    match answer {
        Ok(()) => 0,
        Err(refusal) => refusal.into(),
    }
}

// Writes all heads of a format 2 image, then all data, then all tails, then the rest as it came. A refusal changes nothing.
#[tactic(auto, using(tape::proofs::StoreLaws::number_is, tape::proofs::StoreLaws::none_refused))]
#[unsafe(no_mangle)]
pub extern "C" fn scarletbook_gather_sectors(image: &[u8], out: &mut [u8]) -> u8
    ensures refusal { result ≡ lengths_refusal (length image.now) (length out.old) }
    ensures written { out.new ≡ gather_into image.now out.old }
    ensures restored { result ≡ 0 → Restores scatter_into image.now out.new }
{
    refusal_number(tape::store::gather_sectors(image, out))
}

// The way back: writes the image whose gathered bytes these are. A refusal changes nothing.
#[tactic(auto, using(tape::proofs::StoreLaws::number_is, tape::proofs::StoreLaws::none_refused))]
#[unsafe(no_mangle)]
pub extern "C" fn scarletbook_scatter_sectors(bytes: &[u8], out: &mut [u8]) -> u8
    ensures refusal { result ≡ lengths_refusal (length bytes.now) (length out.old) }
    ensures written { out.new ≡ scatter_into bytes.now out.old }
    ensures restored { result ≡ 0 → Restores gather_into bytes.now out.new }
{
    refusal_number(tape::store::scatter_sectors(bytes, out))
}

// How many bytes the string at a place has; they stand there in the table.
#[unsafe(no_mangle)]
pub extern "C" fn scarletbook_string_length(table: &[u8], place: usize) -> usize
    ensures { result ≡ length (string_at table.now place) }
{
    let bytes = text::string::string_bytes(table, place);
    bytes.len()
}

// How the string at a place ended: 1 by a zero byte, 2 by 4,096 bytes, 3 by the table's end.
#[unsafe(no_mangle)]
pub extern "C" fn scarletbook_string_end(table: &[u8], place: usize) -> u8
    ensures { result ≡ end_of table.now place }
{
    text::string::string_end(table, place).into()
}

// The set of a code: 3 to 6, or 0 for Latin-1.
#[unsafe(no_mangle)]
pub extern "C" fn scarletbook_charset(code: u8) -> u8
    ensures { result ≡ charset_of code }
{
    text::charset::charset(code).into()
}

// Decodes a string's bytes, of the set that a code names, to the start of a page. A refusal changes nothing.
#[unsafe(no_mangle)]
pub extern "C" fn scarletbook_decode(
    bytes: &[u8],
    code: u8,
    mapping: &[u32],
    page: &mut [u8],
) -> DecodeAnswer
    ensures answer { result ≡ decode_of bytes.now code mapping.now (length page.old) }
    ensures filled { page.new ≡ decode_into bytes.now code mapping.now page.old }
{
    text::decode::decode(bytes, code, mapping, page).into()
}

// The text of a field as it is stored; of a longer field than 16 bytes the first 16 count.
#[unsafe(no_mangle)]
pub extern "C" fn scarletbook_fixed_bytes(field: &[u8]) -> FixedText
    ensures { result ≡ fixed_bytes_of field.now }
{
    text::fixed::fixed_bytes(field)
}

// The text of a field, trimmed at both ends; of a longer field than 16 bytes the first 16 count.
#[unsafe(no_mangle)]
pub extern "C" fn scarletbook_fixed_text(field: &[u8]) -> FixedText
    ensures { result ≡ fixed_text_of field.now }
{
    text::fixed::fixed_text(field)
}

// The language that two characters name.
#[unsafe(no_mangle)]
pub extern "C" fn scarletbook_language(first: u8, second: u8) -> LanguageCode
    ensures { result ≡ language_of (first ∷ second ∷ []) }
{
    text::language::language([first, second])
}

// What is kept of a track's times, and whether they went past the play time (0 or 1).
#[repr(C)]
#[derive(Clone, Copy)]
pub struct CapAnswer {
    pub start_frame: Frame,
    pub duration_frames: Frame,
    pub past_playtime: u8,
}

// An item that was drawn, or none (found is 0): its type byte, the place and length of its string, and where the next draw is from.
#[repr(C)]
#[derive(Clone, Copy)]
pub struct DrawAnswer {
    pub found: u8,
    pub kind: u8,
    pub place: usize,
    pub len: usize,
    pub next: usize,
    pub left: usize,
}

impl From<Capped> for CapAnswer {
    ghost from_gives = { λ c a. a ≡ cap_answer c };

    #[tactic(auto, unfolding(crate::specs::Answers::cap_answer, crate::specs::Answers::flag_of))]
    fn from(capped: Capped) -> CapAnswer {
        CapAnswer {
            start_frame: capped.start_frame,
            duration_frames: capped.duration_frames,
            past_playtime: capped.past_playtime as u8,
        }
    }
}

// What a draw from a place on, of so many items that are left, answers; where none is drawn, the cursor stays.
#[tactic(auto, unfolding(crate::specs::Answers::draw_answer))]
fn draw_answer(next: usize, left: usize, drawn: Option<Drawn>) -> DrawAnswer
    ensures { result ≡ draw_answer next left drawn }
{
    match drawn {
        Some(drawn) => DrawAnswer {
            found: 1,
            kind: drawn.kind,
            place: drawn.place,
            len: drawn.len,
            next: drawn.next,
            left: drawn.left,
        },
        None => DrawAnswer {
            found: 0,
            kind: 0,
            place: 0,
            len: 0,
            next,
            left,
        },
    }
}

// The frame number of a timecode.
#[unsafe(no_mangle)]
pub extern "C" fn scarletbook_frame_number(time: Timecode) -> Frame
    ensures { result ≡ frame_number time }
{
    area::timecode::frame_number(time)
}

// A track's times as they are if they end within the play time, else capped at it.
#[unsafe(no_mangle)]
pub extern "C" fn scarletbook_cap(start: Frame, duration: Frame, playtime: Frame) -> CapAnswer
    ensures { result ≡ cap_answer (cap_of start duration playtime) }
{
    area::cap::cap(start, duration, playtime).into()
}

// The next item of a track's text from a place on, of so many that are left.
#[unsafe(no_mangle)]
pub extern "C" fn scarletbook_draw_at(table: &[u8], next: usize, left: usize) -> DrawAnswer
    ensures { result ≡ draw_answer next left (draw_at table.now next left) }
{
    draw_answer(next, left, area::items::draw_at(table, next, left))
}

// Reads the head of a table of so many sectors, at the start of what is lent.
#[unsafe(no_mangle)]
pub extern "C" fn scarletbook_table_head(
    table: &[u8],
    slot: u8,
    lsn: Lsn,
    sectors: u16,
) -> TableHead
    ensures { result ≡ head_of (table_bytes sectors table.now) slot lsn.0 sectors }
{
    area::table::table_head(table, slot, lsn, sectors)
}

// Reads a lone table: its area's record, its tracks into a list of at least 255, its warnings into at least 1,021 words.
#[unsafe(no_mangle)]
pub extern "C" fn scarletbook_read_table(
    table: &[u8],
    tracks: &mut [Track],
    words: &mut [u32],
) -> TableAnswer
    ensures { (result ≡ lone_answer (lone_of table.now (length tracks.old) (length words.old)))
        × ((tracks.new ≡ lone_tracks (lone_of table.now (length tracks.old) (length words.old)) tracks.old)
        × (words.new ≡ lone_words (lone_of table.now (length tracks.old) (length words.old)) words.old)) }
{
    area::lone::read_table(table, tracks, words)
}

// The first format in which an image's master table begins at its place: plain, 2,064 bytes, 2,054 bytes; refused with 4 if none.
#[unsafe(no_mangle)]
pub extern "C" fn scarletbook_detect_format(image: &[u8]) -> DetectAnswer
    ensures { result ≡ detected image.now }
{
    disc::detect::detect_format(image).into()
}

// Reads a disc from one lent image: its master record and the records of its areas, its tables into at least 544,768 work bytes, its
// tracks into a list of at least 510, its warnings into at least 2,047 words. Refusals other than 6 change nothing.
#[unsafe(no_mangle)]
pub extern "C" fn scarletbook_read_disc(
    format: u32,
    image: &[u8],
    work: &mut [u8],
    tracks: &mut [Track],
    words: &mut [u32],
) -> DiscAnswer
    ensures { (result ≡ (read_disc format image.now (record { work = work.old; tracks = tracks.old; words = words.old })).answer)
        × ((work.new ≡ (read_disc format image.now (record { work = work.old; tracks = tracks.old; words = words.old })).memory.work)
        × ((tracks.new ≡ (read_disc format image.now (record { work = work.old; tracks = tracks.old; words = words.old })).memory.tracks)
        × (words.new ≡ (read_disc format image.now (record { work = work.old; tracks = tracks.old; words = words.old })).memory.words))) }
{
    disc::disc::read_disc(format, image, work, tracks, words)
}

// Decodes a text of an area, by its item index, to the start of a page. A refusal changes nothing.
#[unsafe(no_mangle)]
pub extern "C" fn scarletbook_decode_area_text(
    table: &[u8],
    area: Area,
    item: u32,
    mapping: &[u32],
    page: &mut [u8],
) -> DecodeAnswer
    ensures answer { result ≡ text_answer (area_text_in table.now area item) mapping.now (length page.old) }
    ensures filled { page.new ≡ text_page (area_text_in table.now area item) mapping.now page.old }
{
    area::decode::decode_area_text(table, area, item, mapping, page).into()
}

// Decodes a text of a track, by its number and item index, to the start of a page. A refusal changes nothing.
#[unsafe(no_mangle)]
pub extern "C" fn scarletbook_decode_track_text(
    table: &[u8],
    area: Area,
    tracks: &[Track],
    number: u32,
    item: u32,
    mapping: &[u32],
    page: &mut [u8],
) -> DecodeAnswer
    ensures { (result ≡ text_answer (track_text_by table.now area tracks.now number item) mapping.now (length page.old))
        × (page.new ≡ text_page (track_text_by table.now area tracks.now number item) mapping.now page.old) }
{
    area::decode::decode_track_text(table, area, tracks, number, item, mapping, page).into()
}

// Decodes a text of the disc, by its item index, to the start of a page.
#[unsafe(no_mangle)]
pub extern "C" fn scarletbook_decode_disc_text(
    work: &[u8],
    master: MasterToc,
    item: u32,
    mapping: &[u32],
    page: &mut [u8],
) -> DecodeAnswer
    ensures answer { result ≡ text_answer (disc_text_in work.now master item) mapping.now (length page.old) }
    ensures filled { page.new ≡ text_page (disc_text_in work.now master item) mapping.now page.old }
{
    disc::decode::decode_disc_text(work, master, item, mapping, page).into()
}

// Decodes a text of an area after a disc reading.
#[unsafe(no_mangle)]
pub extern "C" fn scarletbook_decode_disc_area_text(
    work: &[u8],
    area: Area,
    item: u32,
    mapping: &[u32],
    page: &mut [u8],
) -> DecodeAnswer
    ensures answer { result ≡ text_answer (area_text_on work.now area item) mapping.now (length page.old) }
    ensures filled { page.new ≡ text_page (area_text_on work.now area item) mapping.now page.old }
{
    disc::decode::decode_disc_area_text(work, area, item, mapping, page).into()
}

// Decodes a text of a track after a disc reading.
#[unsafe(no_mangle)]
pub extern "C" fn scarletbook_decode_disc_track_text(
    work: &[u8],
    area: Area,
    tracks: &[Track],
    number: u32,
    item: u32,
    mapping: &[u32],
    page: &mut [u8],
) -> DecodeAnswer
    ensures { (result ≡ text_answer (track_text_at work.now area tracks.now number item) mapping.now (length page.old))
        × (page.new ≡ text_page (track_text_at work.now area tracks.now number item) mapping.now page.old) }
{
    disc::decode::decode_disc_track_text(work, area, tracks, number, item, mapping, page).into()
}
