// The calls that change a tracker.
ghost use Rattle.std.specs.Prelude.{◌≡◌, ◌++◌, ◌%◌, IfOk, IfErr, OnErr, OnOk, codes, decimal, get_or};
ghost use Rattle.std.specs.Io.KnownBytes.{Appends};
ghost use Rattle.refusal.specs.Number.{number_of};
ghost use Rattle.samplecalls.specs.Room.{SameRoom};

use crate::print::HeaderText;
use crate::storage::Storage;
use calls::Accepted;
use model::Flow;
use refusal::Refusal;
use sampleline::{Line, set_of, small};
use state::Header;
use std::io;
use std::io::Write;

// `start N`, with the header that comes back: that of no tracker where it is refused.
pub fn start<W: Write>(out: &mut W, line: &Line, storage: &mut Storage) -> io::Result<()>
    ensures { SameRoom storage.new storage.old }
{
    *storage.header = Header::NONE;
    let n = line.small(0);
    let reply = calls::start(
        n,
        storage.tags,
        storage.policies,
        storage.counts,
        storage.flows,
    );
    told(out, storage.header, reply)?;
    write!(out, ", {}", HeaderText(*storage.header))
}

// `enable K F T`. The lists are lent one by one, here and below, so that `&` says which of them stay.
pub fn enable<W: Write>(
    out: &mut W,
    line: &Line,
    header: &mut Header,
    tags: &mut [u64],
    policies: &[u64],
    counts: &[u8],
    flows: &mut [Flow],
) -> io::Result<()> {
    let flow = flow_of(line.from(0));
    let reply = calls::enable(*header, tags, policies, counts, flows, flow);
    told(out, header, reply)
}

// The flow whose number and ends these numbers begin with.
pub fn flow_of(numbers: &[u64]) -> Flow
    ensures number { result.number ≡ get_or numbers.now 0 0 % 4294967296 }
    ensures from { result.from ≡ get_or numbers.now 1 0 % 4294967296 }
    ensures to { result.to ≡ get_or numbers.now 2 0 % 4294967296 }
{
    Flow {
        number: small(numbers, 0),
        from: small(numbers, 1),
        to: small(numbers, 2),
    }
}

// `disable K`.
pub fn disable<W: Write>(
    out: &mut W,
    line: &Line,
    header: &mut Header,
    tags: &[u64],
    policies: &[u64],
    counts: &[u8],
    flows: &mut [Flow],
) -> io::Result<()> {
    let number = line.small(0);
    let reply = calls::disable(*header, tags, policies, counts, flows, number);
    told(out, header, reply)
}

// `add C T..`: the policy set of these tags.
pub fn add<W: Write>(
    out: &mut W,
    line: &Line,
    header: &mut Header,
    tags: &[u64],
    policies: &mut [u64],
    counts: &mut [u8],
    flows: &[Flow],
) -> io::Result<()> {
    let c = line.small(0);
    let policy = set_of(line.from(1));
    let reply = calls::add_policy(*header, tags, policies, counts, flows, c, policy);
    told(out, header, reply)
}

// `fill N`: enables N flows from 0 to 1, each with the next number. Nothing is printed.
pub fn fill(
    line: &Line,
    header: &mut Header,
    tags: &mut [u64],
    policies: &[u64],
    counts: &[u8],
    flows: &mut [Flow],
) {
    for _ in 0..line.small(0) {
        let flow = Flow {
            number: header.greatest % 65536 + 1,
            from: 0,
            to: 1,
        };
        let reply = calls::enable(*header, tags, policies, counts, flows, flow);
        *header = reply.map_or(*header, |accepted| accepted.header);
    }
}

// Prints what a call answers (that it is accepted, with its gain, or the refusal), and keeps the header from now on.
pub fn told<W: Write>(
    out: &mut W,
    header: &mut Header,
    reply: Result<Accepted, Refusal>,
) -> io::Result<()>
    ensures header { IfOk reply (λ accepted. header.new ≡ accepted.header) }
    ensures kept { OnErr reply (header.new ≡ header.old) }
    ensures accepted { OnOk result (IfOk reply (λ accepted.
        Appends (W.contents out.old) (W.contents out.new) (codes ": accepted, gain " ++ decimal accepted.gain))) }
    ensures refused { OnOk result (IfErr reply (λ refusal.
        Appends (W.contents out.old) (W.contents out.new) (codes ": refused " ++ decimal (number_of refusal)))) }
{
    match reply {
        Ok(accepted) => {
            *header = accepted.header;
            write!(out, ": accepted, gain {}", accepted.gain)
        }
        Err(refusal) => write!(out, ": refused {refusal}"),
    }
}
