// Fixed text fields: at most 16 bytes, up to a zero byte.
ghost use Rattle.std.specs.Prelude.{◌≡◌, ◌≤◌, length};
ghost use Rattle.text.specs.Fixed.{field_size, field_text, fixed_of, fixed_bytes_of, fixed_text_of};

use crate::padded::padded;
use crate::string::zero_in;
use crate::white::trim;

// Bytes that a field has at most.
pub const FIELD_SIZE: usize = 16;

// The bytes of a field's text, one a character, and how many they are; zero past them.
#[repr(C)]
#[derive(Clone, Copy, Default)]
pub struct FixedText {
    pub bytes: [u8; FIELD_SIZE],
    pub len: u8,
}

// The bytes of a field up to the first zero byte, as a part of the field; of a longer field the first 16 count.
#[tactic(auto, using(crate::proofs::StringLaws::until_taken, sectors::specs::FillLaws::take_cut), unfolding(crate::specs::Fixed::field_text))]
fn field_text<'a>(field: &'a [u8]) -> &'a [u8]
    ensures { result.now ≡ field_text field.now }
{
    let front = &field[..FIELD_SIZE.min(field.len())];
    let n = zero_in(front);
    &front[..n]
}

// A text of at most 16 bytes by value, with its length.
#[tactic(auto, unfolding(crate::specs::Fixed::fixed_of))]
fn fixed_of(text: &[u8]) -> FixedText
    requires { length text.now ≤ field_size }
    ensures { result ≡ fixed_of text.now }
{
    FixedText {
        bytes: padded(text),
        len: text.len() as u8,
    }
}

// The text of a field as it is stored.
#[tactic(auto, using(crate::proofs::FixedLaws::field_text_short), unfolding(crate::specs::Fixed::fixed_bytes_of))]
pub fn fixed_bytes(field: &[u8]) -> FixedText
    ensures { result ≡ fixed_bytes_of field.now }
{
    fixed_of(field_text(field))
}

// The text of a field, trimmed at both ends.
#[tactic(auto, using(crate::proofs::FixedLaws::trimmed_short), unfolding(crate::specs::Fixed::fixed_text_of))]
pub fn fixed_text(field: &[u8]) -> FixedText
    ensures { result ≡ fixed_text_of field.now }
{
    fixed_of(trim(field_text(field)))
}
