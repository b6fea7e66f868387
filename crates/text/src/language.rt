// Language codes of a table's locales.
ghost use Rattle.std.specs.Prelude.{◌≡◌};
ghost use Rattle.std.specs.List.{suffix_len};
ghost use Rattle.text.specs.Language.{is_zero_orBlank, language_of};

use crate::padded::padded;

// Characters of a language code.
pub const LANGUAGE_SIZE: usize = 2;

// A blank, which fills a code up.
const BLANK: u8 = 0x20;

// The characters of a language code, one byte each, and how many they are; zero past them. (C has this record beside `FixedText`, by its own name.)
#[repr(C)]
#[derive(Clone, Copy, Default)]
pub struct LanguageCode {
    pub bytes: [u8; LANGUAGE_SIZE],
    pub len: u8,
}

// Whether a character does not count at a code's end.
#[tactic(auto, unfolding(crate::specs::Language::is_zero_orBlank))]
fn is_zero_or_blank(b: u8) -> bool
    ensures { result ≡ is_zero_orBlank b }
{
    b == 0 || b == BLANK
}

// How many zeros and blanks stand at a code's end.
fn filling(code: &[u8]) -> usize
    ensures { result ≡ suffix_len is_zero_orBlank code.now }
{
    code.iter()
        .rev()
        .take_while(|b| is_zero_or_blank(**b))
        .count()
}

// The language that two characters name.
#[tactic(auto, using(crate::proofs::Rules::run_lengths), unfolding(crate::specs::Language::language_of, crate::specs::Language::language_text, crate::specs::While::drop_while_end))]
pub fn language(code: [u8; LANGUAGE_SIZE]) -> LanguageCode
    ensures { result ≡ language_of code }
{
    let text = &code[..LANGUAGE_SIZE - filling(&code)];
    LanguageCode {
        bytes: padded(text),
        len: text.len() as u8,
    }
}
