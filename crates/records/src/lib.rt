// Refusals, jobs, ranges of quanta, the job block, and what a call asks.
#![tactic(auto)]

pub mod block;
pub mod call;
pub mod job;
pub mod judge;
pub mod range;
pub mod record;
pub mod refusal;
