// What programs read: a closed input that counts as an empty one, a buffer that is filled, and tables that are stored as runs of their bytes.
#![tactic(auto)]

pub mod closed;
pub mod full;
pub mod runs;
