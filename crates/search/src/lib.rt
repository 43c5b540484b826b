// The search for bounds: the bound of a job in a layer with a set above, the lesser of two.
#![tactic(auto)]

pub mod quanta;
mod unassignable;
pub mod workload;
