// Numbers, logs and tag sets by a line of a script: what each function answers, behind the line.
#![tactic(auto)]

pub mod logs;
pub mod numbers;
pub mod sets;
