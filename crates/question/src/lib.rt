// The questions about a container: its tag set, the set's size, whether it may be sent. What each answers stands in
// specs/Question.antt.
// A question changes nothing, and answers for every content and length of lent storage.
#![tactic(auto)]

ghost use Rattle.std.specs.Prelude.{◌≡◌, false, ◌+◌, ◌*◌, ◌≤◌, length};
ghost use Rattle.model.specs.Reach.{tabulate};
ghost use Rattle.tagset.specs.Set.{empty_set, subset_of};
ghost use Rattle.state.specs.State.{state_in, set_at};
ghost use Rattle.question.specs.Question.{tags_of, size_asked, any_of, legal_of};
ghost use Rattle.question.specs.Replies.{asked_by};

use refusal::Refusal;
use state::Tracker;
use tagset::TagSet;

// The container's tag set. The order 9, 12, 4 is judged here, for the other questions too.
pub fn tags_of(t: &Tracker, container: u32) -> Result<TagSet, Refusal>
    ensures { asked_by empty_set result ≡ tags_of (state_in t.now) container }
{
    validity::judge(t)?;
    if t.header.containers <= container {
        return Err(Refusal::NoSuchContainer);
    }
    Ok(tagstore::load_set(t.tags, container as usize))
}

// How many tags the container has.
pub fn size_of(t: &Tracker, container: u32) -> Result<u32, Refusal>
    ensures { asked_by 0 result ≡ size_asked (state_in t.now) container }
{
    Ok(tags_of(t, container)?.size())
}

// Whether the container may be sent: whether its tag set is part of one of its policy sets.
pub fn is_legal(t: &Tracker, container: u32) -> Result<bool, Refusal>
    ensures { asked_by false result ≡ legal_of (state_in t.now) container }
{
    let set = tags_of(t, container)?;
    let c = container as usize;
    Ok(some_allows(set, t.policies, c, t.counts[c]))
}

// Whether the set is part of one of the first `count` policy sets of container c. The first that has all of it decides.
fn some_allows(set: TagSet, policies: &[u64], c: usize, count: u8) -> bool
    requires { (count ≤ 4) × (16 * c + 16 ≤ length policies.now) }
    ensures { result ≡ any_of (subset_of set) (tabulate count (λ k. set_at policies.now (4 * c + k))) }
{
    (0..usize::from(count)).any(|k| set.is_subset(tagstore::load_set(policies, 4 * c + k)))
}
