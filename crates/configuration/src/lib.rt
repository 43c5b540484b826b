// Settings and configurations: the configuration block and refusals 7 to 11.
#![tactic(auto)]

pub mod block;
pub mod judge;
pub mod setting;
