// Trees in compact form, as they lie in the store: reading, searching, packing, and the check.
#![tactic(auto)]

pub mod compact;
pub mod entries;
pub mod judge;
