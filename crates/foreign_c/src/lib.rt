// The product for programs in other languages: the functions of the crate `foreign`, exported as C functions of the
// same names with the same contracts. Each calls the one that its comment names, and does nothing else. What a caller
// in C owes stands at the head of that crate.
// Each function stands again here, and not here alone, since no crate can depend on a static library, and the ties of
// the claims are over functions of a crate: they are over `foreign`.
#![tactic(auto)]

ghost use Rattle.std.specs.Prelude.{◌≡◌, min, length};
ghost use Rattle.leb128.specs.Number.{form_of, decode_at, encode_at, write_at};
ghost use Rattle.eventlog.specs.declared.Event.TheVariants.{Enable, Disable};
ghost use Rattle.eventlog.specs.Log.{record_at, head_at, bytes_of};
ghost use Rattle.state.specs.State.{storage_of, state_of};
ghost use Rattle.outcome.specs.Outcome.{start_of, enable_of, disable_of, add_of};
ghost use Rattle.question.specs.Question.{tags_of, size_asked, legal_of};
ghost use Rattle.ranking.specs.Ranking.{rank_of};
ghost use Rattle.replay.specs.Replay.{replay_of};
ghost use Rattle.tallytext.specs.Text.{new_storage, tally_of};
ghost use Rattle.foreign.specs.Numbers.{outcome_in, set_in, size_in, legal_in, replay_in, reading_in, writing_in, record_of};

use foreign::{
    CallAnswer, LegalAnswer, NumberAnswer, RecordAnswer, ReplayAnswer, SetAnswer, SizeAnswer,
    WriteAnswer,
};
use model::Flow;
use state::Header;
use tagset::TagSet;

// `foreign::tracker_start`.
#[unsafe(no_mangle)]
pub extern "C" fn tracker_start(
    n: u32,
    tags: &mut [u64],
    policies: &mut [u64],
    counts: &mut [u8],
    flows: &mut [Flow],
) -> CallAnswer
    ensures { outcome_in result tags.new policies.new counts.new flows.new ≡ start_of n (storage_of tags.old policies.old counts.old flows.old) }
{
    foreign::tracker_start(n, tags, policies, counts, flows)
}

// `foreign::tracker_enable`.
#[unsafe(no_mangle)]
pub extern "C" fn tracker_enable(
    header: Header,
    tags: &mut [u64],
    policies: &[u64],
    counts: &[u8],
    flows: &mut [Flow],
    flow: Flow,
) -> CallAnswer
    ensures { outcome_in result tags.new policies.now counts.now flows.new ≡ enable_of (state_of header tags.old policies.now counts.now flows.old) flow }
{
    foreign::tracker_enable(header, tags, policies, counts, flows, flow)
}

// `foreign::tracker_disable`.
#[unsafe(no_mangle)]
pub extern "C" fn tracker_disable(
    header: Header,
    tags: &[u64],
    policies: &[u64],
    counts: &[u8],
    flows: &mut [Flow],
    number: u32,
) -> CallAnswer
    ensures { outcome_in result tags.now policies.now counts.now flows.new ≡ disable_of (state_of header tags.now policies.now counts.now flows.old) number }
{
    foreign::tracker_disable(header, tags, policies, counts, flows, number)
}

// `foreign::tracker_add_policy`.
#[unsafe(no_mangle)]
pub extern "C" fn tracker_add_policy(
    header: Header,
    tags: &[u64],
    policies: &mut [u64],
    counts: &mut [u8],
    flows: &[Flow],
    container: u32,
    policy: TagSet,
) -> CallAnswer
    ensures { outcome_in result tags.now policies.new counts.new flows.now ≡ add_of (state_of header tags.now policies.old counts.old flows.now) container policy }
{
    foreign::tracker_add_policy(header, tags, policies, counts, flows, container, policy)
}

// `foreign::tracker_tags_of`.
#[unsafe(no_mangle)]
pub extern "C" fn tracker_tags_of(
    header: Header,
    tags: &[u64],
    policies: &[u64],
    counts: &[u8],
    flows: &[Flow],
    container: u32,
) -> SetAnswer
    ensures { set_in result ≡ tags_of (state_of header tags.now policies.now counts.now flows.now) container }
{
    foreign::tracker_tags_of(header, tags, policies, counts, flows, container)
}

// `foreign::tracker_size_of`.
#[unsafe(no_mangle)]
pub extern "C" fn tracker_size_of(
    header: Header,
    tags: &[u64],
    policies: &[u64],
    counts: &[u8],
    flows: &[Flow],
    container: u32,
) -> SizeAnswer
    ensures { size_in result ≡ size_asked (state_of header tags.now policies.now counts.now flows.now) container }
{
    foreign::tracker_size_of(header, tags, policies, counts, flows, container)
}

// `foreign::tracker_is_legal`.
#[unsafe(no_mangle)]
pub extern "C" fn tracker_is_legal(
    header: Header,
    tags: &[u64],
    policies: &[u64],
    counts: &[u8],
    flows: &[Flow],
    container: u32,
) -> LegalAnswer
    ensures { legal_in result ≡ legal_of (state_of header tags.now policies.now counts.now flows.now) container }
{
    foreign::tracker_is_legal(header, tags, policies, counts, flows, container)
}

// `foreign::tracker_rank`.
#[unsafe(no_mangle)]
pub extern "C" fn tracker_rank(
    header: Header,
    tags: &[u64],
    policies: &[u64],
    counts: &[u8],
    flows: &[Flow],
    out: &mut [u16],
) -> u32
    ensures answer { result ≡ (rank_of (state_of header tags.now policies.now counts.now flows.now) out.old).refusal }
    ensures output { out.new ≡ (rank_of (state_of header tags.now policies.now counts.now flows.now) out.old).output }
{
    foreign::tracker_rank(header, tags, policies, counts, flows, out)
}

// `foreign::tracker_replay`.
#[unsafe(no_mangle)]
pub extern "C" fn tracker_replay(
    bytes: &[u8],
    tags: &mut [u64],
    policies: &mut [u64],
    counts: &mut [u8],
    flows: &mut [Flow],
) -> ReplayAnswer
    ensures { replay_in result tags.new policies.new counts.new flows.new ≡ replay_of bytes.now (storage_of tags.old policies.old counts.old flows.old) }
{
    foreign::tracker_replay(bytes, tags, policies, counts, flows)
}

// `foreign::log_decode`.
#[unsafe(no_mangle)]
pub extern "C" fn log_decode(bytes: &[u8], at: usize, width: u32) -> NumberAnswer
    ensures { reading_in result ≡ decode_at (min width 64) bytes.now at }
{
    foreign::log_decode(bytes, at, width)
}

// `foreign::log_encode`.
#[unsafe(no_mangle)]
pub extern "C" fn log_encode(out: &mut [u8], at: usize, value: u64) -> WriteAnswer
    ensures answer { writing_in result ≡ (encode_at out.old at value).answer }
    ensures output { out.new ≡ (encode_at out.old at value).output }
{
    foreign::log_encode(out, at, value)
}

// `foreign::log_read_head`.
#[unsafe(no_mangle)]
pub extern "C" fn log_read_head(bytes: &[u8]) -> NumberAnswer
    ensures { reading_in result ≡ head_at bytes.now }
{
    foreign::log_read_head(bytes)
}

// `foreign::log_write_head`.
#[unsafe(no_mangle)]
pub extern "C" fn log_write_head(out: &mut [u8], n: u32) -> WriteAnswer
    ensures answer { writing_in result ≡ (write_at out.old 0 (form_of n)).answer }
    ensures output { out.new ≡ (write_at out.old 0 (form_of n)).output }
{
    foreign::log_write_head(out, n)
}

// `foreign::log_read_record`.
#[unsafe(no_mangle)]
pub extern "C" fn log_read_record(bytes: &[u8], at: usize) -> RecordAnswer
    ensures { result ≡ record_of (record_at bytes.now at) }
{
    foreign::log_read_record(bytes, at)
}

// `foreign::log_write_enable`.
#[unsafe(no_mangle)]
pub extern "C" fn log_write_enable(out: &mut [u8], at: usize, flow: Flow) -> WriteAnswer
    ensures answer { writing_in result ≡ (write_at out.old at (bytes_of (Enable flow.number flow.from flow.to))).answer }
    ensures output { out.new ≡ (write_at out.old at (bytes_of (Enable flow.number flow.from flow.to))).output }
{
    foreign::log_write_enable(out, at, flow)
}

// `foreign::log_write_disable`.
#[unsafe(no_mangle)]
pub extern "C" fn log_write_disable(out: &mut [u8], at: usize, number: u32) -> WriteAnswer
    ensures answer { writing_in result ≡ (write_at out.old at (bytes_of (Disable number))).answer }
    ensures output { out.new ≡ (write_at out.old at (bytes_of (Disable number))).output }
{
    foreign::log_write_disable(out, at, number)
}

// `foreign::log_enable_len`.
#[unsafe(no_mangle)]
pub extern "C" fn log_enable_len(flow: Flow) -> usize
    ensures { result ≡ length (bytes_of (Enable flow.number flow.from flow.to)) }
{
    foreign::log_enable_len(flow)
}

// `foreign::log_disable_len`.
#[unsafe(no_mangle)]
pub extern "C" fn log_disable_len(number: u32) -> usize
    ensures { result ≡ length (bytes_of (Disable number)) }
{
    foreign::log_disable_len(number)
}

// `foreign::tally_text`.
#[unsafe(no_mangle)]
pub extern "C" fn tally_text(bytes: &[u8], out: &mut [u8]) -> WriteAnswer
    ensures answer { writing_in result ≡ (tally_of bytes.now new_storage out.old).answer }
    ensures output { out.new ≡ (tally_of bytes.now new_storage out.old).output }
{
    foreign::tally_text(bytes, out)
}
