// A damaged tree mended: what can be read and kept of it, in order, and what was changed.
#![tactic(auto)]

pub mod mend;
pub mod pass;
pub mod piece;
pub mod report;
pub mod table;
