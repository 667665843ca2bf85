#![tactic(auto)]

// A script of calls as numbers: its reading, and the printing of what each call leaves.
pub mod input;
pub mod output;
