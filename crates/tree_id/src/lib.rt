// The id that Git gives an object, in each format: the hash of its kind, a space, its length in decimal, a NUL and its bytes.
#![tactic(auto)]

mod ids;
mod part;

pub use ids::{Format, begin, compact_id, object_id, tree_id};
