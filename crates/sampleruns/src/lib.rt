// Whole logs by a line of a script: how a replay ends, and the text of `tally`.
#![tactic(auto)]

pub mod large;
pub mod runs;
