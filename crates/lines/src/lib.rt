// Lines of a key and a value, over slices: read at a place, and written into lent bytes. What they say is defined in specs/.
#![tactic(auto)]

pub mod hex;
pub mod line;
pub mod number;
pub mod text;
