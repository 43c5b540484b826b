// One finish of a job: the least time that equals its demand, by iteration.
#![tactic(auto)]

pub mod capacity;
pub mod demand;
pub mod finish;
