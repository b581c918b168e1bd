// Whether a record and lent slices hold an editor.
#![tactic(auto)]

pub mod holds;
pub mod laid;
pub mod lent;
pub mod open_write;
mod parents;
mod runs;
mod tag;
