// Disc readings with the list of tracks by value, for programs.
#![tactic(auto)]

pub mod reading;
