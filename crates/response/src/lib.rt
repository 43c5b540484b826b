// The response-time test: definitions, laws and the type of a bound's parts, no code. The crate `search` finds the bounds, and
// `parts` their parts.
#![tactic(auto)]

pub mod parts;
