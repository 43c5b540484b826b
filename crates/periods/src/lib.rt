// The order in which the planner tries sets of jobs: by size, then by larger sum of periods, then by smaller number. The sets of a size are
// put in order when they are asked for.
#![tactic(auto)]

pub mod subsets;
pub mod sums;
