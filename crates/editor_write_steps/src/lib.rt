// The steps of a write between two requests: the next tree is taken, set aside or finished.
#![tactic(auto)]

pub mod links;
pub mod pick;
pub mod scan;
pub mod turn;
