// Texts: job lists, configurations and kernel records.
#![tactic(auto)]

pub mod blocks;
pub mod fault;
pub mod fields;
pub mod rows;
pub mod tables;
pub mod words;
