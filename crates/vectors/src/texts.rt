// Cards of the texts: sets, decoding, fixed fields, languages and stored strings, written one to a line.
use crate::hex::Hex;
use std::io;
use std::io::Write;
use text::charset::charset;
use text::decode::{DecodeAnswer, NO_MAPPING, decode};
use text::fixed::fixed_text;
use text::language::language;
use text::string::string_bytes;

// Codes whose sets are written: 8 is Latin-1, 11 is set 3.
const CODES: [u8; 5] = [8, 11, 2, 6, 7];

// Texts that are decoded without a mapping, and the codes of their sets: byte E9 gives C3 A9; controls become blanks; sets 3 to 6 are not held, but an
// absent text has length 0 in every set; a page of eight bytes has room for eight.
const DECODED: [(&[u8], u8); 6] = [
    (b"\xE9", 0),
    (b"a\x1F\x7F\x80", 8),
    (b"abc", 11),
    (b"", 11),
    (b"abc\xE9def", 7),
    (b"abc\xE9\xE9def", 7),
];

// A mapping: singles A, B (a double), C (a control) and hexadecimal 81; pairs hexadecimal 8140, 8141 (a double of a control and D) and 889E, which is
// reserved in Shift JIS.
const MAPPING: [u32; 21] = [
    4,
    0x41,
    0x41,
    0x42,
    0x8000_0000,
    0x43,
    0x07,
    0x81,
    0xA5,
    3,
    0x8140,
    0x3000,
    0x8141,
    0x8000_0001,
    0x889E,
    0x1F600,
    2,
    0x304B,
    0x309A,
    0x08,
    0x44,
];

// Texts that are decoded by it: a single, a pair, a double, controls, a reserved pair in set 3 and in set 4, one that the mapping has, an unmapped pair, a
// first byte at the end; nine bytes, for which there is no room.
const MAPPED: [(&[u8], u8); 10] = [
    (b"A", 3),
    (b"\x81\x40", 3),
    (b"B", 3),
    (b"C\x81\x41", 3),
    (b"\x87\x9F", 3),
    (b"\x87\x9F", 4),
    (b"\x88\x9E", 3),
    (b"\x82\x81\x40", 3),
    (b"A\x81", 3),
    (b"\x81\x40\x81\x40\x81\x40", 3),
];

// Texts that are decoded by it without its last word: 12, but not in Latin-1 or for an absent text.
const UNMAPPED: [(&[u8], u8); 3] = [(b"A", 3), (b"A", 8), (b"", 3)];

const FIELDS: [&[u8]; 2] = [b"\x20\xA0AB\x09C\x85\x1C\x00D", b"0123456789abcdefg"];

const LANGUAGES: [[u8; 2]; 4] = [*b"en", *b"e\x20", *b"\x00n", *b"\x20\x00"];

// A line of what decoding into a page of eight full stops answers: the refusal, the length, and the page.
fn decode_line(out: &mut impl Write, bytes: &[u8], code: u8, mapping: &[u32]) -> io::Result<()> {
    let mut page = *b"........";
    let answer = DecodeAnswer::from(decode(bytes, code, mapping, &mut page));
    writeln!(out, "{} {} {}", answer.refusal, answer.len, Hex(&page))
}

fn decode_lines(out: &mut impl Write, texts: &[(&[u8], u8)], mapping: &[u32]) -> io::Result<()> {
    for (bytes, code) in texts {
        decode_line(out, bytes, *code, mapping)?;
    }
    Ok(())
}

// Lines of fixed texts: the length and the 16 bytes.
fn fixed_lines(out: &mut impl Write) -> io::Result<()> {
    for field in FIELDS {
        let text = fixed_text(field);
        writeln!(out, "{} {}", text.len, Hex(&text.bytes))?;
    }
    Ok(())
}

// Lines of language codes: the length and the two bytes.
fn language_lines(out: &mut impl Write) -> io::Result<()> {
    for code in LANGUAGES {
        let language = language(code);
        writeln!(out, "{} {}", language.len, Hex(&language.bytes))?;
    }
    Ok(())
}

// Lines of the strings at places of a table.
fn string_lines(out: &mut impl Write) -> io::Result<()> {
    for place in [0, 4, 3, 7] {
        out.write_all(string_bytes(b"abc\x00def", place))?;
        writeln!(out)?;
    }
    Ok(())
}

pub(crate) fn cards(out: &mut impl Write) -> io::Result<()> {
    for code in CODES {
        writeln!(out, "{}", u8::from(charset(code)))?;
    }
    decode_lines(out, &DECODED, &NO_MAPPING)?;
    decode_lines(out, &MAPPED, &MAPPING)?;
    decode_lines(out, &UNMAPPED, &MAPPING[..20])?;
    fixed_lines(out)?;
    language_lines(out)?;
    string_lines(out)
}
