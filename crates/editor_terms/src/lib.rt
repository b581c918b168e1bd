// Edits, ids, the object table and what the walk sees: what the editor's calls take and give, apart from the store.
#![tactic(auto)]

pub mod edit;
pub mod id;
pub mod refusal;
pub mod table;
