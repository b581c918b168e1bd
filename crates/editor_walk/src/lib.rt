// The walk over the components of a path: lookups, the first pass of an edit, which changes nothing, and the second, which makes its steps.
#![tactic(auto)]

pub mod apply;
pub mod component;
pub mod counts;
pub mod land;
pub mod look;
pub mod measure;
pub mod seen;
pub mod task;
