// What a program in C links: an editor changed in place, with numbers for enums.
#![tactic(auto)]

mod edit;
mod mend;
mod read;
mod request;
mod root;
mod write;
