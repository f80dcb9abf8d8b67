// Replays and texts in the script's tracker.
// Room is fixed, as in the product, which has no heap.
ghost use Rattle.samplecalls.specs.Room.{SameRoom};

use refusal::Refusal;
use samplecalls::print::HeaderText;
use samplecalls::storage::{Room, Storage};
use sampleline::Line;
use sampleline::print::{read, written};
use std::io;
use std::io::Write;

// `judge T P C F B..`: n of a log, in lists of these lengths.
pub fn judge<W: Write>(out: &mut W, line: &Line, bytes: &[u8]) -> io::Result<()> {
    let room = Room::of(line);
    read(
        out,
        replay::read_containers(bytes, room.tags, room.policies, room.counts, room.flows),
    )
}

// `replay B..`: how the run ended, the events done, their gain and the header.
pub fn replay_log<W: Write>(out: &mut W, bytes: &[u8], storage: &mut Storage) -> io::Result<()>
    ensures { SameRoom storage.new storage.old }
{
    let run = replay::replay(
        bytes,
        storage.tags,
        storage.policies,
        storage.counts,
        storage.flows,
    );
    *storage.header = run.header;
    match run.stop {
        None => out.write_all(b": complete")?,
        Some(stop) => write!(out, ": refused {} at {}", stop.refusal, stop.byte)?,
    }
    let header = HeaderText(run.header);
    write!(out, ", events {}, gain {}, {header}", run.events, run.gain)
}

// `tally B..`: the whole text, on lines of its own without its last newline, or only how long it is where that is above
// 512.
pub fn tally<W: Write>(out: &mut W, bytes: &[u8], storage: &mut Storage) -> io::Result<()>
    ensures { SameRoom storage.new storage.old }
{
    let mut text = [0u8; 264256];
    let reply = run(bytes, &mut text, storage);
    out.write_all(b":")?;
    match reply {
        Ok(length) if 512 < length => write!(out, " {length} bytes of text"),
        Ok(length) => {
            let whole = text.get(..length).unwrap_or(&[]);
            out.write_all(b"\n")?;
            out.write_all(whole.strip_suffix(b"\n").unwrap_or(whole))
        }
        Err(_) => Ok(()),
    }
}

// `short L B..`: the text into L bytes of 7, at most 64, and what they have then.
pub fn short<W: Write>(
    out: &mut W,
    line: &Line,
    bytes: &[u8],
    storage: &mut Storage,
) -> io::Result<()>
    ensures { SameRoom storage.new storage.old }
{
    let n = (line.get(0) % 65) as usize;
    let mut text = [7u8; 64];
    let reply = run(bytes, &mut text[..n], storage);
    written(out, reply, &text[..n])
}

// What a run of `tally` into `out` answers. The header and the flow table that it leaves are kept: it has a table of
// its own.
fn run(bytes: &[u8], out: &mut [u8], storage: &mut Storage) -> Result<usize, Refusal>
    ensures { SameRoom storage.new storage.old }
{
    let done = report::tally(bytes, storage.tags, storage.policies, storage.counts, out);
    *storage.header = done.header;
    let n = storage.flows.len().min(done.flows.len());
    storage.flows[..n].copy_from_slice(&done.flows[..n]);
    done.reply
}
