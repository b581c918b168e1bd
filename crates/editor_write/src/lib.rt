// The write over a lent store, one request at a time.
#![tactic(auto)]

pub mod answer;
pub mod begin;
pub mod fail;
pub mod next;
pub mod request;
