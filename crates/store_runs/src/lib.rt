// Runs of bytes in lent slices: moves of bytes, maps of slots, and runs cut by their lengths.
#![tactic(auto)]

pub mod bits;
pub mod moves;
pub mod runs;
