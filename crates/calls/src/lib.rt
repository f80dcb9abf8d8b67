// Starting, enabling, disabling and adding a policy set, in storage that is lent. What each answers and leaves stands
// in outcome/specs/Outcome.antt. Replay goes by `apply_enable` and `apply_disable`, which do not judge the state.
// A call takes the four lists one by one and no struct of them, since it says by `&` or `&mut` which it may change, as
// its C function does.
#![tactic(auto)]

ghost use Rattle.std.specs.Prelude.{◌≡◌, List, ℕ, ◌*◌, ◌≤◌, length};
ghost use Rattle.model.specs.declared.Flow.{Flow};
ghost use Rattle.state.specs.State.{storage_of, state_of};
ghost use Rattle.outcome.specs.Outcome.{no_header, start_of, enable_of, disable_of, add_of};
ghost use Rattle.calls.specs.Replies.{left_by};
ghost use Rattle.calls.specs.Unjudged.{apply_enable_of, apply_disable_of, apply_add_of};

use model::Flow;
use refusal::Refusal;
use state::{Header, Tracker};
use tagset::TagSet;

// What an accepted call answers: its gain, and the header from now on. A refused one leaves the header as it was.
#[derive(Clone, Copy, Debug, PartialEq, Eq)]
pub struct Accepted {
    pub header: Header,
    pub gain: u32,
}

// Starts a tracker of n containers in this storage: each container has its own tag alone and no policy set, and no flow
// is enabled.
pub fn start(
    n: u32,
    tags: &mut [u64],
    policies: &mut [u64],
    counts: &mut [u8],
    flows: &mut [Flow],
) -> Result<Accepted, Refusal>
    ensures { left_by result no_header tags.new policies.new counts.new flows.new ≡ start_of n (storage_of tags.old policies.old counts.old flows.old) }
{
    if validity::bad_size(n, tags.len(), policies.len(), counts.len(), flows.len()) {
        return Err(Refusal::BadSize);
    }
    tagstore::store_own_tags(tags, n);
    policies[..16 * (n as usize)].fill(0);
    counts[..n as usize].fill(0);
    flows[..512].fill(Flow::NONE);
    Ok(Accepted {
        header: Header {
            containers: n,
            count: 0,
            greatest: 0,
        },
        gain: 0,
    })
}

// Enables a flow (document 01: an opening). The policy sets are judged with the state, and stay.
pub fn enable(
    header: Header,
    tags: &mut [u64],
    policies: &[u64],
    counts: &[u8],
    flows: &mut [Flow],
    flow: Flow,
) -> Result<Accepted, Refusal>
    ensures { left_by result header tags.new policies.now counts.now flows.new ≡ enable_of (state_of header tags.old policies.now counts.now flows.old) flow }
{
    validity::judge(&Tracker {
        header,
        tags,
        policies,
        counts,
        flows,
    })?;
    apply_enable(header, tags, flows, flow)
}

// Disables the flow of this number (document 01: a closing). No set changes.
pub fn disable(
    header: Header,
    tags: &[u64],
    policies: &[u64],
    counts: &[u8],
    flows: &mut [Flow],
    number: u32,
) -> Result<Accepted, Refusal>
    ensures { left_by result header tags.now policies.now counts.now flows.new ≡ disable_of (state_of header tags.now policies.now counts.now flows.old) number }
{
    validity::judge(&Tracker {
        header,
        tags,
        policies,
        counts,
        flows,
    })?;
    apply_disable(header, flows, number)
}

// Adds a policy set to a container (document 01: a permitted set), behind those that it has. It is no event, and
// changes no record.
pub fn add_policy(
    header: Header,
    tags: &[u64],
    policies: &mut [u64],
    counts: &mut [u8],
    flows: &[Flow],
    container: u32,
    policy: TagSet,
) -> Result<Accepted, Refusal>
    ensures { left_by result header tags.now policies.new counts.new flows.now ≡ add_of (state_of header tags.now policies.old counts.old flows.now) container policy }
{
    validity::judge(&Tracker {
        header,
        tags,
        policies,
        counts,
        flows,
    })?;
    apply_add(header, policies, counts, container, policy)
}

// Enables a flow without judging the state: on a usable state (law `apply-enable`) as `enable` does. The policy sets
// are not looked at.
#[tactic(auto, using(std::proofs::lemmas::Bool::Decides::nat_tests), unfolding(crate::specs::Unjudged::apply_enable_of, outcome::specs::Outcome::enable_later, outcome::specs::Outcome::decided, crate::specs::Unjudged::appended_to, crate::specs::Unjudged::carrying))]
pub fn apply_enable(
    header: Header,
    tags: &mut [u64],
    flows: &mut [Flow],
    flow: Flow,
) -> Result<Accepted, Refusal>
    ensures { (policies counts : List ℕ) → left_by result header tags.new policies counts flows.new ≡ apply_enable_of (state_of header tags.old policies counts flows.old) flow }
{
    if header.containers <= flow.from || header.containers <= flow.to {
        return Err(Refusal::NoSuchContainer);
    }
    if flow.from == flow.to {
        return Err(Refusal::SelfFlow);
    }
    if flow.number <= header.greatest {
        return Err(Refusal::StaleNumber);
    }
    if 512 <= header.count {
        return Err(Refusal::TableFull);
    }
    let count = header.count + 1;
    flowtable::put(flows, header.count as usize, flow);
    let end = flows.len().min(count as usize);
    let made = propagation::propagate(tags, header.containers, &flows[..end]);
    Ok(Accepted {
        header: Header {
            count,
            greatest: flow.number,
            ..header
        },
        gain: made.gain,
    })
}

// Disables the flow of this number without judging the state: on a usable state (law `apply-disable`) as `disable`
// does.
pub fn apply_disable(header: Header, flows: &mut [Flow], number: u32) -> Result<Accepted, Refusal>
    ensures { (tags policies counts : List ℕ) → left_by result header tags policies counts flows.new ≡ apply_disable_of (state_of header tags policies counts flows.old) number }
{
    let used = flows.len().min(header.count as usize);
    let place = flowtable::find(&flows[..used], number).ok_or(Refusal::NotEnabled)?;
    flowtable::remove(&mut flows[..used.min(512)], place);
    Ok(Accepted {
        header: Header {
            count: header.count - 1,
            ..header
        },
        gain: 0,
    })
}

// Adds a policy set in storage that is long enough, without judging the state.
#[tactic(auto, using(std::proofs::lemmas::Bool::Decides::nat_tests), unfolding(crate::specs::Unjudged::apply_add_of, outcome::specs::Outcome::add_later, outcome::specs::Outcome::decided, outcome::specs::Outcome::adding))]
fn apply_add(
    header: Header,
    policies: &mut [u64],
    counts: &mut [u8],
    container: u32,
    policy: TagSet,
) -> Result<Accepted, Refusal>
    requires { (header.containers ≤ 256) × (16 * header.containers ≤ length policies.old) × (header.containers ≤ length counts.old) }
    ensures { (tags : List ℕ) (flows : List Flow) → left_by result header tags policies.new counts.new flows ≡ apply_add_of (state_of header tags policies.old counts.old flows) container policy }
{
    if header.containers <= container || policy.exceeds(header.containers) {
        return Err(Refusal::NoSuchContainer);
    }
    let c = container as usize;
    let k = counts[c];
    if 4 <= k {
        return Err(Refusal::PolicyFull);
    }
    tagstore::store_set(policies, 4 * c + usize::from(k), policy);
    counts[c] = k + 1;
    Ok(Accepted { header, gain: 0 })
}
