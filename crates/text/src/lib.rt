// The key program's text, and what a function that writes a text answers beside it.
#![tactic(auto)]

pub mod answer;
pub mod key;
pub mod program;
