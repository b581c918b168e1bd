// Whole trees into and out of slots: a raw tree is cached, a cached tree is written in its raw form or loses its null entries.
#![tactic(auto)]

pub mod gap;
pub mod load;
pub mod nulls;
pub mod raw;
