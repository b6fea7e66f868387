// The store for tapes: the bytes of an image in another order, and back.
#![tactic(auto)]

pub mod store;
