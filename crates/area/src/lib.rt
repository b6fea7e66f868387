// The area tables of an SACD: the walk of their sub-structures, the area record, tracks, warnings and texts.
#![tactic(auto)]

pub mod area;
pub mod bytes;
pub mod cap;
pub mod chain;
pub mod cursor;
pub mod decode;
pub mod items;
pub mod locale;
pub mod lone;
pub mod refusal;
mod skip;
pub mod table;
pub mod text_places;
pub mod timecode;
pub mod track;
mod track_text;
pub mod tracks;
pub mod warning;
