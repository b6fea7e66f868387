// The tables of an SACD image: the master record, the areas of both slots, disc reading, and decoding of what it read.
#![tactic(auto)]

pub mod answer;
mod copies;
pub mod decode;
pub mod detect;
pub mod disc;
mod fetch;
mod judge;
pub mod master;
pub mod refusal;
pub mod regions;
