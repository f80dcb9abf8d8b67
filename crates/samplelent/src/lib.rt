// The public calls on a flow table that is lent to them: 513 records of any content, in fixed room, as in the product.
#![tactic(auto)]

ghost use Rattle.samplecalls.specs.Room.{SameRoom, SameTable};

use model::Flow;
use samplecalls::changes::{flow_of, told};
use samplecalls::print::HeaderText;
use samplecalls::storage::Storage;
use sampleline::Line;
use std::io;
use std::io::Write;
use tracker::{Accepted, Header, Refusal};

// Replays a log, and enables a flow after it.
pub fn go_on(
    bytes: &[u8],
    storage: &mut Storage,
    content: Flow,
    flow: Flow,
) -> (Header, Result<Accepted, Refusal>)
    ensures room { SameRoom storage.new storage.old }
    ensures table { SameTable storage.new storage.old }
{
    let mut table = [content; 513];
    let run = tracker::replay(
        bytes,
        storage.tags,
        storage.policies,
        storage.counts,
        &mut table,
    );
    let reply = tracker::enable(
        run.header,
        storage.tags,
        &mut *storage.policies,
        &mut *storage.counts,
        &mut table,
        flow,
    );
    (run.header, reply)
}

// `lent K F T B..`: a log replayed and a flow enabled after it by the public calls, on a lent table of other
// content. The script's header and table stay.
pub fn lent<W: Write>(
    out: &mut W,
    line: &Line,
    bytes: &[u8],
    storage: &mut Storage,
) -> io::Result<()>
    ensures room { SameRoom storage.new storage.old }
    ensures table { SameTable storage.new storage.old }
{
    let content = Flow {
        number: 7,
        from: 8,
        to: 9,
    };
    let flow = flow_of(line.from(0));
    let (mut after, reply) = go_on(bytes, storage, content, flow);
    told(out, &mut after, reply)?;
    write!(out, ", {}", HeaderText(after))
}
