// The planner's rule and its guarantee: definitions and theorems, no code.

#![tactic(auto)]
