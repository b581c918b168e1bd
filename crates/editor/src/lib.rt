// The calls of an editor over a lent store: each is refused in the order of the numbers, or made.
#![tactic(auto)]

pub mod cursor;
pub mod edit;
pub mod look;
mod ready;
pub mod root;
