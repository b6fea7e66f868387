// A string's bytes decoded to UTF-8, into a lent page.
ghost use Rattle.std.specs.Prelude.{◌≡◌, map, ◌≤◌, length};
ghost use Rattle.std.specs.Str.{IsAscii};
ghost use Rattle.sectors.specs.Fill.{fill};
ghost use Rattle.text.specs.Decode.{gives, answer_by, answer_in, page_with, decode_of, decode_into};
ghost use Rattle.text.specs.Refusal.{number_of};
ghost use Rattle.text.specs.Utf8.{blanked, encoded};

use crate::charset::{CharacterSet, charset};
use crate::mapped::decode_mapped;
use crate::utf8::{blank_low, put_character};

// Why a text is not decoded.
#[derive(Clone, Copy, Debug, PartialEq, Eq)]
pub enum DecodeRefusal {
    ShortBuffer = 2,
    NoSuchEntry = 8,
    SetNotHeld = 9,
    ShortPage = 10,
    BadMapping = 12,
}

impl From<DecodeRefusal> for u8 {
    ghost from_gives = { λ r n. n ≡ number_of r };

    #[tactic(auto, unfolding(crate::specs::Refusal::number_of))]
    fn from(refusal: DecodeRefusal) -> u8 {
        refusal as u8
    }
}

// The answer as C has it: a refusal, or 0 and how many bytes the text has.
#[repr(C)]
#[derive(Clone, Copy)]
pub struct DecodeAnswer {
    pub refusal: u8,
    pub len: usize,
}

impl From<Result<usize, DecodeRefusal>> for DecodeAnswer {
    ghost from_gives = { λ r a. a ≡ answer_by r };

    #[tactic(auto, unfolding(crate::specs::Decode::answer_by, crate::specs::Decode::giving, crate::specs::Decode::refusing))]
    fn from(answer: Result<usize, DecodeRefusal>) -> DecodeAnswer {
        match answer {
            Ok(len) => DecodeAnswer { refusal: 0, len },
            Err(refusal) => DecodeAnswer {
                refusal: u8::from(refusal),
                len: 0,
            },
        }
    }
}

// What a caller without a mapping lends.
pub const NO_MAPPING: [u32; 0] = [];

// How many bytes the UTF-8 of a Latin-1 string has: one for each byte, and one more for each that is not ASCII.
#[tactic(auto, using(crate::proofs::Writing::take_next, crate::proofs::Writing::next_length, crate::proofs::Ascii::latin1_more, crate::specs::Utf8Laws::encoded_none))]
fn latin1_length(bytes: &[u8]) -> usize
    ensures { result ≡ length (encoded bytes.now) }
{
    let mut len = bytes.len();
    for byte in bytes {
        len += usize::from(!byte.is_ascii());
    }
    len
}

// Writes an ASCII string to the start of a page.
#[tactic(auto, using(crate::proofs::Writing::byte_written, crate::specs::Utf8Laws::blanked_below, sectors::specs::FillLaws::fill_none))]
fn put_ascii(bytes: &[u8], page: &mut [u8])
    requires { length bytes.now ≤ length page.old }
    ensures { page.new ≡ fill 0 (map blanked bytes.now) page.old }
{
    for (i, byte) in bytes.iter().enumerate() {
        page[i] = blank_low(u32::from(*byte)) as u8;
    }
}

// Writes a Latin-1 string to the start of a page.
// (A loop beside that of `put_points`: a contract over any iterator would have to name what it yields, which is no plainer.)
#[tactic(auto, using(crate::specs::Utf8Laws::encoded_none, sectors::specs::FillLaws::fill_none))]
fn put_latin1(bytes: &[u8], page: &mut [u8])
    requires { length (encoded bytes.now) ≤ length page.old }
    ensures { page.new ≡ fill 0 (encoded bytes.now) page.old }
{
    let mut at = 0;
    for byte in bytes {
        at = put_character(page, at, u32::from(*byte));
    }
}

// Decodes ASCII, in which each byte is its own UTF-8.
pub(crate) fn decode_ascii(bytes: &[u8], page: &mut [u8]) -> Result<usize, DecodeRefusal>
    requires { IsAscii bytes.now }
    ensures answer { answer_by result ≡ answer_in (length page.old) (gives bytes.now) }
    ensures filled { page.new ≡ page_with (gives bytes.now) page.old }
{
    if page.len() < bytes.len() {
        return Err(DecodeRefusal::ShortPage);
    }
    put_ascii(bytes, page);
    Ok(bytes.len())
}

// Decodes Latin-1, in which each byte is its own code point.
#[tactic(auto, using(crate::proofs::Rules::in_page), unfolding(crate::specs::Decode::answer_by, crate::specs::Refusal::number_of))]
pub(crate) fn decode_latin1(bytes: &[u8], page: &mut [u8]) -> Result<usize, DecodeRefusal>
    ensures answer { answer_by result ≡ answer_in (length page.old) (gives bytes.now) }
    ensures filled { page.new ≡ page_with (gives bytes.now) page.old }
{
    let len = latin1_length(bytes);
    if page.len() < len {
        return Err(DecodeRefusal::ShortPage);
    }
    put_latin1(bytes, page);
    Ok(len)
}

// Decodes a string's bytes, of the set that a code names, to the start of a page, those of sets 3 to 6 by a mapping. A refusal changes nothing. (The
// Rust's `decode_string`; its own `decode` leaves controls as they are.)
#[tactic(auto, using(crate::proofs::DecodeLaws::points_held, crate::proofs::DecodeLaws::points_other), unfolding(crate::specs::Decode::decode_of, crate::specs::Decode::decode_into))]
pub fn decode(
    bytes: &[u8],
    code: u8,
    mapping: &[u32],
    page: &mut [u8],
) -> Result<usize, DecodeRefusal>
    ensures answer { answer_by result ≡ decode_of bytes.now code mapping.now (length page.old) }
    ensures filled { page.new ≡ decode_into bytes.now code mapping.now page.old }
{
    match charset(code) {
        CharacterSet::Latin1 if bytes.is_ascii() => decode_ascii(bytes, page),
        CharacterSet::Latin1 => decode_latin1(bytes, page),
        set => decode_mapped(bytes, set, mapping, page),
    }
}
