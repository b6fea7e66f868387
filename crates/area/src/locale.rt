// The locales of an area table.
ghost use Rattle.std.specs.Prelude.{◌≡◌, ◌<◌, ◌+◌, ◌^◌};
ghost use Rattle.area.specs.Locale.{locale_at, no_locale, locale_or, locales_at};

use sectors::number::byte_at;
use std::array;
use text::language::{LanguageCode, language};

// Locales that a record holds at most.
pub const MAX_LOCALES: usize = 10;

// Where a table's locales stand.
const LOCALES_OFFSET: u8 = 88;

// A locale: its language, the two bytes of the language as stored, and the code of its character set.
#[repr(C)]
#[derive(Clone, Copy, Default)]
pub struct Locale {
    pub language: LanguageCode,
    pub language_code: [u8; 2],
    pub charset: u8,
}

// The locale in four bytes from a place on.
#[tactic(auto, unfolding(crate::specs::Locale::locale_at, crate::specs::Locale::code_at))]
fn locale_at(table: &[u8], at: usize) -> Locale
    requires { at + 2 < 2 ^ 64 }
    ensures { result ≡ locale_at table.now at }
{
    let code = [byte_at(table, at), byte_at(table, at + 1)];
    Locale {
        language: language(code),
        language_code: code,
        charset: byte_at(table, at + 2),
    }
}

// The zero record.
#[tactic(auto, unfolding(crate::specs::Locale::no_locale))]
pub fn no_locale() -> Locale
    ensures { result ≡ no_locale }
{
    Locale::default()
}

// The locale of an index below a count, of those that stand from a place on, or the zero record.
#[tactic(auto, unfolding(crate::specs::Locale::locale_or))]
pub fn locale_or(table: &[u8], at: u8, k: u8, count: u8) -> Locale
    ensures { result ≡ locale_or table.now at count k }
{
    if k < count {
        locale_at(table, at as usize + 4 * k as usize)
    } else {
        no_locale()
    }
}

// The first locales of a table, as many as a count says and the record holds; zero past them.
#[tactic(auto, unfolding(crate::specs::Locale::locales_at, crate::specs::Tabulate::tabulate))]
pub(crate) fn locales_at(table: &[u8], count: u8) -> [Locale; MAX_LOCALES]
    ensures { result ≡ locales_at table.now count }
{
    array::from_fn(|k| locale_or(table, LOCALES_OFFSET, k as u8, count))
}
