// The small program's work: from the bytes of its input to those of its output.
#![tactic(auto)]

pub mod record;
pub mod run;
pub mod save;
