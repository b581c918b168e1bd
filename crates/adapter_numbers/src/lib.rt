// The calls that change an editor, with numbers for their answers, modes and ids as C has them.
// Stays: answers are numbers here, with 255 for arguments that mean nothing: they are the results of the exported functions of adapter.
#![tactic(auto)]

pub mod edit;
pub mod next;
pub mod root;
pub mod told;
pub mod write;
