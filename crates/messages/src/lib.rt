// What is said of a faulty line of a text, and a refusal in words.
#![tactic(auto)]

pub mod fault;
pub mod refusal;
