// The product's calls, in one place. Lent are four words of tags a container, sixteen words of policy sets, one count
// of these and 512 records of flows, each list of any length and content. What a call answers and leaves stands in
// Outcome.antt of outcome, Question.antt of question, Ranking.antt of ranking, Replay.antt of replay.
#![tactic(auto)]

pub use calls::{Accepted, add_policy, disable, enable, start};
pub use model::Flow;
pub use question::{is_legal, size_of, tags_of};
pub use ranking::rank;
pub use refusal::Refusal;
pub use replay::{Replayed, Stop, replay};
pub use state::{Header, Tracker};
pub use tagset::TagSet;
