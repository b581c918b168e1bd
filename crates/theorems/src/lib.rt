// Theorems alone: what the statements of the public calls promise, taken together.
#![tactic(auto)]
