// Stored strings decoded where they stand.
ghost use Rattle.std.specs.Prelude.{◌≡◌, length, take_while};
ghost use Rattle.text.specs.Ascii.{is_stored_ascii};
ghost use Rattle.text.specs.Decode.{gives, answer_by, answer_in, page_with, decode_of, decode_into};
ghost use Rattle.text.specs.String.{string_at, placed_string};

use crate::charset::{CharacterSet, charset};
use crate::decode::{DecodeRefusal, decode, decode_ascii, decode_latin1};
use crate::string::{string_bytes, string_window};
use sectors::number::byte_at;

// Whether a byte is one of an ASCII string: not zero, and below hexadecimal 80.
#[tactic(auto, unfolding(crate::specs::Ascii::is_stored_ascii, crate::specs::String::nonzero))]
fn is_stored_ascii(b: u8) -> bool
    ensures { result ≡ is_stored_ascii b }
{
    b != 0 && b.is_ascii()
}

// How many bytes stand before the first that is zero or not ASCII; all, if there is none.
fn ascii_in(bytes: &[u8]) -> usize
    ensures { result ≡ length (take_while is_stored_ascii bytes.now) }
{
    bytes.iter().take_while(|b| is_stored_ascii(**b)).count()
}

// Decodes the Latin-1 string at a place of a table. The end of an ASCII one is found in one pass; one that is not ASCII is sought anew.
#[tactic(auto, using(crate::proofs::Rules::ascii_front, sectors::specs::NumberLaws::be_byte), unfolding(crate::specs::String::string_at))]
fn decode_latin1_at(table: &[u8], place: usize, page: &mut [u8]) -> Result<usize, DecodeRefusal>
    ensures answer { answer_by result ≡ answer_in (length page.old) (gives (string_at table.now place)) }
    ensures filled { page.new ≡ page_with (gives (string_at table.now place)) page.old }
{
    let window = string_window(table, place);
    let n = ascii_in(window);
    if byte_at(window, n) == 0 {
        return decode_ascii(&window[..n], page);
    }
    decode_latin1(string_bytes(table, place), page)
}

// Decodes the text whose string a record places in a table, 0 for an absent one, to the start of a page. A refusal changes nothing.
#[tactic(auto, using(crate::proofs::StringLaws::placed_none, crate::proofs::StringLaws::placed_there, crate::proofs::DecodeLaws::decode_absent, crate::proofs::DecodeLaws::into_absent, crate::proofs::DecodeLaws::points_held), unfolding(crate::specs::Decode::answer_by, crate::specs::Decode::decode_of, crate::specs::Decode::decode_into))]
pub fn decode_placed(
    table: &[u8],
    place: u32,
    code: u8,
    mapping: &[u32],
    page: &mut [u8],
) -> Result<usize, DecodeRefusal>
    ensures answer { answer_by result ≡ decode_of (placed_string table.now place) code mapping.now (length page.old) }
    ensures filled { page.new ≡ decode_into (placed_string table.now place) code mapping.now page.old }
{
    if place == 0 {
        return Ok(0);
    }
    match charset(code) {
        CharacterSet::Latin1 => decode_latin1_at(table, place as usize, page),
        _ => decode(string_bytes(table, place as usize), code, mapping, page),
    }
}
