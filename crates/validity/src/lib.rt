// Whether a state can be used: storage long enough (refusal 9), content valid (refusal 12). Every other refusal comes
// after these two.
#![tactic(auto)]

ghost use Rattle.std.specs.Prelude.{◌≡◌, cond, ltb, ◌+◌, ◌*◌, ◌≤◌, length};
ghost use Rattle.refusal.specs.Order.{first_of};
ghost use Rattle.refusal.specs.Number.{refusal_of};
ghost use Rattle.tagset.specs.Set.{empty_set};
ghost use Rattle.state.specs.State.{short_of, state_in, set_at};
ghost use Rattle.state.specs.Valid.{valid_of, state_order, is_no_flow};
ghost use Rattle.state.specs.IsValid.{IsSized};
ghost use Rattle.state.specs.Layout.{Fit64};
ghost use Rattle.validity.specs.Scan.{policies_valid, containers_valid, flow_valid, flows_valid};

use model::Flow;
use refusal::Refusal;
use state::{Header, Tracker};
use tagset::TagSet;

// Judges the state: first its lengths, then its content.
pub fn judge(t: &Tracker) -> Result<(), Refusal>
    ensures { refusal_of result ≡ first_of (state_order (state_in t.now)) 0 }
{
    if bad_size(
        t.header.containers,
        t.tags.len(),
        t.policies.len(),
        t.counts.len(),
        t.flows.len(),
    ) {
        return Err(Refusal::BadSize);
    }
    if !is_valid(t) {
        return Err(Refusal::InvalidState);
    }
    Ok(())
}

// Whether n is 0 or above 256, or the four lent lists, of these lengths, are too short for n containers. It takes the
// lengths one by one: a struct of the four would be made at each call only to be taken apart.
pub fn bad_size(n: u32, tags: usize, policies: usize, counts: usize, flows: usize) -> bool
    ensures { result ≡ short_of n tags policies counts flows }
{
    let m = n as usize;
    (n == 0) | (256 < n) | (tags < 4 * m) | (policies < 16 * m) | (counts < m) | (flows < 512)
}

// Whether the state is valid. Each word, count and record is read once, and a tag set once more for each flow that
// begins or ends at it.
fn is_valid(t: &Tracker) -> bool
    requires { IsSized t.now.header.containers (state_in t.now).storage }
    ensures { result ≡ valid_of (state_in t.now) }
{
    if 512 < t.header.count {
        return false;
    }
    let count = t.header.count as usize;
    containers_valid(t.header.containers, t.tags, t.policies, t.counts)
        && flows_valid(t.header, t.tags, &t.flows[..count])
        && t.flows[count..512].iter().all(is_none)
}

// Whether the record is zero. To compare it with `Flow::NONE` branches at each number: judging few flows then takes a
// tenth longer.
fn is_none(flow: &Flow) -> bool
    ensures { result ≡ is_no_flow flow.now }
{
    (flow.number == 0) & (flow.from == 0) & (flow.to == 0)
}

// Whether each container has its own tag, only known tags, and valid policy sets. It takes the lists one by one: of a
// list in a `Tracker` the proof does not know that its words have 64 bits (`words`).
fn containers_valid(n: u32, tags: &[u64], policies: &[u64], counts: &[u8]) -> bool
    requires { (n ≤ 256) × (4 * n ≤ length tags.now) × (16 * n ≤ length policies.now) × (n ≤ length counts.now) }
    ensures valid { result ≡ containers_valid n tags.now policies.now counts.now }
    ensures words { Fit64 policies.now }
{
    let known = TagSet::below(n);
    (0..n).all(|c| {
        let i = c as usize;
        let set = set_at(tags, i);
        set.contains(c) && set.is_subset(known) && policies_valid(policies, i, counts[i], known)
    })
}

// Whether container c has at most four policy sets, all of known tags, and zeros in the places that it does not use.
fn policies_valid(policies: &[u64], c: usize, count: u8, known: TagSet) -> bool
    requires { 16 * c + 16 ≤ length policies.now }
    ensures { result ≡ policies_valid known policies.now c count }
{
    // all four places are tested without a branch: a loop over them takes a third longer
    let k = 4 * c;
    (count <= 4)
        & set_at(policies, k).is_subset(allowed(0, count, known))
        & set_at(policies, k + 1).is_subset(allowed(1, count, known))
        & set_at(policies, k + 2).is_subset(allowed(2, count, known))
        & set_at(policies, k + 3).is_subset(allowed(3, count, known))
}

// What place k for policy sets may hold where `count` are used.
fn allowed(k: u8, count: u8, known: TagSet) -> TagSet
    ensures { result ≡ cond (ltb k count) known empty_set }
{
    if k < count { known } else { TagSet::empty() }
}

// Set k, which the words have. Tagstore's `load_set` asks whether they do: judging with it takes half as long again.
fn set_at(words: &[u64], k: usize) -> TagSet
    requires { 4 * k + 4 ≤ length words.now }
    ensures { result ≡ set_at words.now k }
{
    TagSet {
        words: words.as_chunks().0[k],
    }
}

// Whether the enabled flows' numbers rise from at least 1, and each flow is valid. The bound on the words is asked here
// and by `flow_valid`: a struct of header and words would hold again what the `Tracker` holds, and state the bound once
// more.
fn flows_valid(header: Header, tags: &[u64], flows: &[Flow]) -> bool
    requires { 4 * header.containers ≤ length tags.now }
    ensures { result ≡ flows_valid header tags.now 0 flows.now }
{
    let mut last: u32 = 0;
    for flow in flows {
        if flow.number <= last || !flow_valid(header, tags, *flow) {
            return false;
        }
        last = flow.number;
    }
    true
}

// Whether the flow's number is not past the greatest, its ends are containers and differ, and the source's tags are the
// destination's too.
fn flow_valid(header: Header, tags: &[u64], f: Flow) -> bool
    requires { 4 * header.containers ≤ length tags.now }
    ensures { result ≡ flow_valid header tags.now f }
{
    f.number <= header.greatest
        && f.from < header.containers
        && f.to < header.containers
        && f.from != f.to
        && set_at(tags, f.from as usize).is_subset(set_at(tags, f.to as usize))
}
