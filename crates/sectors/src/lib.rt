// The sectors of an SACD image and of two rips of one disc, the numbers in its tables, the header audit, mending and the fingerprint.
#![tactic(auto)]

pub mod bytes;
mod field;
pub mod fnv;
pub mod header;
mod log;
pub mod mend;
pub mod number;
pub mod pool;
pub mod refusal;
pub mod run;
pub mod sector;
pub mod signature;
pub mod source;
