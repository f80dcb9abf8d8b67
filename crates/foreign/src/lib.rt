// The product for programs in other languages: its calls, the log's reader and writer and the text of `tally`, as
// functions on numbers, slices and records. Each does what the function that its comment names does, and nothing else;
// a refusal is said by its number. The crate foreign_c exports them as C functions.
// A slice is a pointer and a length there, and each list is one by itself. What no contract here can say, a caller in C
// owes: each pointer is aligned and not null, its elements are there for the whole call, and what is lent to be written
// overlaps nothing else.
// evidence/product and evidence/interface have the same records in Rust.
#![tactic(auto)]

ghost use Rattle.std.specs.Prelude.{◌≡◌, false, min, length};
ghost use Rattle.refusal.specs.Number.{refusal_of};
ghost use Rattle.leb128.specs.Answer.{reading_of, writing_of};
ghost use Rattle.leb128.specs.Number.{form_of, decode_at, encode_at, write_at};
ghost use Rattle.eventlog.specs.declared.Event.TheVariants.{Enable, Disable};
ghost use Rattle.eventlog.specs.Answer.{record_reading_of};
ghost use Rattle.eventlog.specs.Log.{record_at, head_at, bytes_of};
ghost use Rattle.tagset.specs.Set.{empty_set};
ghost use Rattle.state.specs.State.{storage_of, state_of};
ghost use Rattle.outcome.specs.Outcome.{start_of, enable_of, disable_of, add_of};
ghost use Rattle.question.specs.Question.{tags_of, size_asked, legal_of};
ghost use Rattle.question.specs.Replies.{asked_by};
ghost use Rattle.ranking.specs.Ranking.{rank_of};
ghost use Rattle.replay.specs.Replay.{replay_of};
ghost use Rattle.tallytext.specs.Text.{new_storage, tally_of};
ghost use Rattle.foreign.specs.Numbers.{outcome_in, set_in, size_in, legal_in, replay_in, reading_in, writing_in, record_of, call_told, replay_told};

use eventlog::Event;
use model::Flow;
use refusal::Refusal;
use state::{Header, Tracker};
use tagset::TagSet;
use tracker::{Accepted, Replayed};

// One record for each answer: a record of C has no type parameter.

// What an event, a start or adding a policy set answers: the refusal's number or 0, the gain, the header.
#[repr(C)]
#[derive(Clone, Copy)]
pub struct CallAnswer {
    pub refusal: u32,
    pub gain: u32,
    pub header: Header,
}

// What the question for a set answers.
#[repr(C)]
#[derive(Clone, Copy)]
pub struct SetAnswer {
    pub refusal: u32,
    pub set: TagSet,
}

// What the question for a size answers.
#[repr(C)]
#[derive(Clone, Copy)]
pub struct SizeAnswer {
    pub refusal: u32,
    pub size: u32,
}

// What the question whether a container may be sent answers.
#[repr(C)]
#[derive(Clone, Copy)]
pub struct LegalAnswer {
    pub refusal: u32,
    pub legal: bool,
}

// What a replay answers: the refusal's number or 0, the byte of the refused record, the events done, their gain, the
// header.
#[repr(C)]
#[derive(Clone, Copy)]
pub struct ReplayAnswer {
    pub refusal: u32,
    pub byte: usize,
    pub events: u64,
    pub gain: u64,
    pub header: Header,
}

// What reading a number answers: the refusal's number or 0, the value, the position after it.
#[repr(C)]
#[derive(Clone, Copy)]
pub struct NumberAnswer {
    pub refusal: u32,
    pub value: u64,
    pub next: usize,
}

// What writing answers: the refusal's number or 0, the position after what was written.
#[repr(C)]
#[derive(Clone, Copy)]
pub struct WriteAnswer {
    pub refusal: u32,
    pub next: usize,
}

// What reading a record answers: the refusal's number or 0, the kind (0 an enable, 1 a disable), the flow (of a disable
// only its number), the position after the record.
#[repr(C)]
#[derive(Clone, Copy)]
pub struct RecordAnswer {
    pub refusal: u32,
    pub kind: u32,
    pub flow: Flow,
    pub next: usize,
}

// `tracker::start`.
pub fn tracker_start(
    n: u32,
    tags: &mut [u64],
    policies: &mut [u64],
    counts: &mut [u8],
    flows: &mut [Flow],
) -> CallAnswer
    ensures { outcome_in result tags.new policies.new counts.new flows.new ≡ start_of n (storage_of tags.old policies.old counts.old flows.old) }
{
    call_answer(
        tracker::start(n, tags, policies, counts, flows),
        Header::NONE,
    )
}

// `tracker::enable`.
pub fn tracker_enable(
    header: Header,
    tags: &mut [u64],
    policies: &[u64],
    counts: &[u8],
    flows: &mut [Flow],
    flow: Flow,
) -> CallAnswer
    ensures { outcome_in result tags.new policies.now counts.now flows.new ≡ enable_of (state_of header tags.old policies.now counts.now flows.old) flow }
{
    call_answer(
        tracker::enable(header, tags, policies, counts, flows, flow),
        header,
    )
}

// `tracker::disable`.
pub fn tracker_disable(
    header: Header,
    tags: &[u64],
    policies: &[u64],
    counts: &[u8],
    flows: &mut [Flow],
    number: u32,
) -> CallAnswer
    ensures { outcome_in result tags.now policies.now counts.now flows.new ≡ disable_of (state_of header tags.now policies.now counts.now flows.old) number }
{
    call_answer(
        tracker::disable(header, tags, policies, counts, flows, number),
        header,
    )
}

// `tracker::add_policy`.
pub fn tracker_add_policy(
    header: Header,
    tags: &[u64],
    policies: &mut [u64],
    counts: &mut [u8],
    flows: &[Flow],
    container: u32,
    policy: TagSet,
) -> CallAnswer
    ensures { outcome_in result tags.now policies.new counts.new flows.now ≡ add_of (state_of header tags.now policies.old counts.old flows.now) container policy }
{
    call_answer(
        tracker::add_policy(header, tags, policies, counts, flows, container, policy),
        header,
    )
}

// `tracker::tags_of`.
pub fn tracker_tags_of(
    header: Header,
    tags: &[u64],
    policies: &[u64],
    counts: &[u8],
    flows: &[Flow],
    container: u32,
) -> SetAnswer
    ensures { set_in result ≡ tags_of (state_of header tags.now policies.now counts.now flows.now) container }
{
    let t = Tracker {
        header,
        tags,
        policies,
        counts,
        flows,
    };
    tracker::tags_of(&t, container).into()
}

// `tracker::size_of`.
pub fn tracker_size_of(
    header: Header,
    tags: &[u64],
    policies: &[u64],
    counts: &[u8],
    flows: &[Flow],
    container: u32,
) -> SizeAnswer
    ensures { size_in result ≡ size_asked (state_of header tags.now policies.now counts.now flows.now) container }
{
    let t = Tracker {
        header,
        tags,
        policies,
        counts,
        flows,
    };
    tracker::size_of(&t, container).into()
}

// `tracker::is_legal`.
pub fn tracker_is_legal(
    header: Header,
    tags: &[u64],
    policies: &[u64],
    counts: &[u8],
    flows: &[Flow],
    container: u32,
) -> LegalAnswer
    ensures { legal_in result ≡ legal_of (state_of header tags.now policies.now counts.now flows.now) container }
{
    let t = Tracker {
        header,
        tags,
        policies,
        counts,
        flows,
    };
    tracker::is_legal(&t, container).into()
}

// `tracker::rank`: the refusal's number or 0.
pub fn tracker_rank(
    header: Header,
    tags: &[u64],
    policies: &[u64],
    counts: &[u8],
    flows: &[Flow],
    out: &mut [u16],
) -> u32
    ensures answer { result ≡ (rank_of (state_of header tags.now policies.now counts.now flows.now) out.old).refusal }
    ensures output { out.new ≡ (rank_of (state_of header tags.now policies.now counts.now flows.now) out.old).output }
{
    let t = Tracker {
        header,
        tags,
        policies,
        counts,
        flows,
    };
    number_of(&tracker::rank(&t, out))
}

// `tracker::replay`.
pub fn tracker_replay(
    bytes: &[u8],
    tags: &mut [u64],
    policies: &mut [u64],
    counts: &mut [u8],
    flows: &mut [Flow],
) -> ReplayAnswer
    ensures { replay_in result tags.new policies.new counts.new flows.new ≡ replay_of bytes.now (storage_of tags.old policies.old counts.old flows.old) }
{
    tracker::replay(bytes, tags, policies, counts, flows).into()
}

// `leb128::decode`.
pub fn log_decode(bytes: &[u8], at: usize, width: u32) -> NumberAnswer
    ensures { reading_in result ≡ decode_at (min width 64) bytes.now at }
{
    leb128::decode(bytes, at, width).into()
}

// `leb128::encode`.
pub fn log_encode(out: &mut [u8], at: usize, value: u64) -> WriteAnswer
    ensures answer { writing_in result ≡ (encode_at out.old at value).answer }
    ensures output { out.new ≡ (encode_at out.old at value).output }
{
    leb128::encode(out, at, value).into()
}

// `eventlog::read_head`: the value is n.
pub fn log_read_head(bytes: &[u8]) -> NumberAnswer
    ensures { reading_in result ≡ head_at bytes.now }
{
    eventlog::read_head(bytes)
        .map(|(n, next)| (u64::from(n), next))
        .into()
}

// `eventlog::write_head`.
pub fn log_write_head(out: &mut [u8], n: u32) -> WriteAnswer
    ensures answer { writing_in result ≡ (write_at out.old 0 (form_of n)).answer }
    ensures output { out.new ≡ (write_at out.old 0 (form_of n)).output }
{
    eventlog::write_head(out, n).into()
}

// `eventlog::read_record`.
pub fn log_read_record(bytes: &[u8], at: usize) -> RecordAnswer
    ensures { result ≡ record_of (record_at bytes.now at) }
{
    eventlog::read_record(bytes, at).into()
}

// `eventlog::write_record` of an enable.
pub fn log_write_enable(out: &mut [u8], at: usize, flow: Flow) -> WriteAnswer
    ensures answer { writing_in result ≡ (write_at out.old at (bytes_of (Enable flow.number flow.from flow.to))).answer }
    ensures output { out.new ≡ (write_at out.old at (bytes_of (Enable flow.number flow.from flow.to))).output }
{
    eventlog::write_record(out, at, enabling(flow)).into()
}

// `eventlog::write_record` of a disable.
pub fn log_write_disable(out: &mut [u8], at: usize, number: u32) -> WriteAnswer
    ensures answer { writing_in result ≡ (write_at out.old at (bytes_of (Disable number))).answer }
    ensures output { out.new ≡ (write_at out.old at (bytes_of (Disable number))).output }
{
    eventlog::write_record(out, at, Event::Disable { number }).into()
}

// `eventlog::record_len` of an enable.
pub fn log_enable_len(flow: Flow) -> usize
    ensures { result ≡ length (bytes_of (Enable flow.number flow.from flow.to)) }
{
    eventlog::record_len(enabling(flow))
}

// `eventlog::record_len` of a disable.
pub fn log_disable_len(number: u32) -> usize
    ensures { result ≡ length (bytes_of (Disable number)) }
{
    eventlog::record_len(Event::Disable { number })
}

// `report::text`: the text that the program `tally` prints for these bytes.
pub fn tally_text(bytes: &[u8], out: &mut [u8]) -> WriteAnswer
    ensures answer { writing_in result ≡ (tally_of bytes.now new_storage out.old).answer }
    ensures output { out.new ≡ (tally_of bytes.now new_storage out.old).output }
{
    report::text(bytes, out).into()
}

// The event that enables this flow.
fn enabling(flow: Flow) -> Event
    ensures { result ≡ Enable flow.number flow.from flow.to }
{
    Event::Enable {
        number: flow.number,
        from: flow.from,
        to: flow.to,
    }
}

// The refusal's number, 0 where nothing is refused.
fn number_of<T>(answer: &Result<T, Refusal>) -> u32
    ensures { result ≡ refusal_of answer.now }
{
    match answer {
        Ok(_) => 0,
        Err(refusal) => u32::from(*refusal),
    }
}

// The numbers of what a call answers that began with this header: a refused one leaves it. (A `From` of the pair of
// both would be no plainer: each call would make the pair.)
fn call_answer(answer: Result<Accepted, Refusal>, header: Header) -> CallAnswer
    ensures { result ≡ call_told answer header }
{
    let refusal = number_of(&answer);
    let Accepted { header, gain } = answer.unwrap_or(Accepted { header, gain: 0 });
    CallAnswer {
        refusal,
        gain,
        header,
    }
}

impl From<Result<TagSet, Refusal>> for SetAnswer {
    ghost from_gives = { λ answer told. set_in told ≡ asked_by empty_set answer };

    fn from(answer: Result<TagSet, Refusal>) -> SetAnswer {
        SetAnswer {
            refusal: number_of(&answer),
            set: answer.unwrap_or(TagSet::empty()),
        }
    }
}

impl From<Result<u32, Refusal>> for SizeAnswer {
    ghost from_gives = { λ answer told. size_in told ≡ asked_by 0 answer };

    fn from(answer: Result<u32, Refusal>) -> SizeAnswer {
        SizeAnswer {
            refusal: number_of(&answer),
            size: answer.unwrap_or(0),
        }
    }
}

impl From<Result<bool, Refusal>> for LegalAnswer {
    ghost from_gives = { λ answer told. legal_in told ≡ asked_by false answer };

    fn from(answer: Result<bool, Refusal>) -> LegalAnswer {
        LegalAnswer {
            refusal: number_of(&answer),
            legal: answer.unwrap_or(false),
        }
    }
}

impl From<Replayed> for ReplayAnswer {
    ghost from_gives = { λ run told. told ≡ replay_told run };

    fn from(run: Replayed) -> ReplayAnswer {
        ReplayAnswer {
            refusal: run.stop.map_or(0, |stop| u32::from(stop.refusal)),
            byte: run.stop.map_or(0, |stop| stop.byte),
            events: run.events,
            gain: run.gain,
            header: run.header,
        }
    }
}

impl From<Result<(u64, usize), Refusal>> for NumberAnswer {
    ghost from_gives = { λ answer told. reading_in told ≡ reading_of answer };

    fn from(answer: Result<(u64, usize), Refusal>) -> NumberAnswer {
        let refusal = number_of(&answer);
        let (value, next) = answer.unwrap_or((0, 0));
        NumberAnswer {
            refusal,
            value,
            next,
        }
    }
}

impl From<Result<usize, Refusal>> for WriteAnswer {
    ghost from_gives = { λ answer told. writing_in told ≡ writing_of answer };

    fn from(answer: Result<usize, Refusal>) -> WriteAnswer {
        WriteAnswer {
            refusal: number_of(&answer),
            next: answer.unwrap_or(0),
        }
    }
}

impl From<Result<(Event, usize), Refusal>> for RecordAnswer {
    ghost from_gives = { λ answer told. told ≡ record_of (record_reading_of answer) };

    fn from(answer: Result<(Event, usize), Refusal>) -> RecordAnswer {
        let none = RecordAnswer {
            refusal: number_of(&answer),
            kind: 0,
            flow: Flow::NONE,
            next: 0,
        };
        match answer {
            Ok((Event::Enable { number, from, to }, next)) => RecordAnswer {
                flow: Flow { number, from, to },
                next,
                ..none
            },
            Ok((Event::Disable { number }, next)) => RecordAnswer {
                kind: 1,
                flow: Flow {
                    number,
                    ..Flow::NONE
                },
                next,
                ..none
            },
            Err(_) => none,
        }
    }
}
