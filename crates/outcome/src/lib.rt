// What each call of the tracker answers and leaves: specs/Outcome.antt. The code is in the crate calls.
#![tactic(auto)]
