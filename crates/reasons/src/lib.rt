// Why a list, a call past limits, a hand-in, priorities or a kernel block are refused: which sentence is said, of which record and with which
// numbers. Nothing is judged here: the record is the first of which the judge's own rule does not hold.
#![tactic(auto)]

pub mod hand_in;
pub mod kernels;
pub mod limited;
pub mod list;
pub mod reason;
