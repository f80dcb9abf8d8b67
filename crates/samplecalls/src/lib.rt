// A tracker by a line of a script: what each call answers, behind the line.
#![tactic(auto)]

pub mod asks;
pub mod changes;
pub mod pokes;
pub mod print;
pub mod storage;
