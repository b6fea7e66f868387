// Walks by hand: what the proofs of functions over slices of records share. It stands in specs/; there is no code.
#![tactic(auto)]
