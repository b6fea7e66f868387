// The texts of an SACD table: stored strings, character sets, decoding to UTF-8 (by a lent mapping too), fixed fields and language codes.
#![tactic(auto)]

pub mod charset;
pub mod decode;
pub mod fixed;
pub mod language;
mod lookup;
mod mapped;
mod mapping;
mod padded;
mod points;
pub mod stored;
pub mod string;
mod utf8;
mod white;
