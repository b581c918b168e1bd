// The small program's input: records of four lines, over slices. What the program reads is defined in specs/.
#![tactic(auto)]

pub mod form;
pub mod record;
