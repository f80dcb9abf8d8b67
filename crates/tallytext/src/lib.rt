// The text of `tally`, and the laws of that: specs/Text.antt. The code is in the crate report.
#![tactic(auto)]
