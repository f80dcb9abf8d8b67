// Large logs, written and then run.
// Room is fixed, as in the product, which has no heap.
ghost use Rattle.std.specs.Iterator.{IsFinite};

use crate::runs::{replay_log, tally};
use eventlog::Event;
use model::Flow;
use samplecalls::storage::{Storage, front};
use sampleline::Line;
use state::Header;
use std::io;
use std::io::Write;

// `large K`: the K-th of the logs below, replayed in so many records, and its text. The lists are lent one by one, so
// that they keep their lengths by their types.
pub fn large<W: Write>(
    out: &mut W,
    line: &Line,
    records: usize,
    header: &mut Header,
    tags: &mut [u64],
    policies: &mut [u64],
    counts: &mut [u8],
    flows: &mut [Flow],
) -> io::Result<()> {
    let mut bytes = [0u8; 16385];
    let length = put_log(&mut bytes, line.small(0)).min(16385);
    let log = &bytes[..length];
    let mut part = Storage {
        header: &mut *header,
        tags: &mut *tags,
        policies: &mut *policies,
        counts: &mut *counts,
        flows: front(flows, records),
    };
    replay_log(out, log, &mut part)?;
    out.write_all(b", text")?;
    let mut whole = Storage {
        header,
        tags,
        policies,
        counts,
        flows,
    };
    tally(out, log, &mut whole)
}

// Writes a log and answers its length: 513 flows; 16,384 bytes, and one more; 256 containers with no flow, and in a
// ring. `kind` is the number that the script gives.
fn put_log(log: &mut [u8], kind: u32) -> usize {
    match kind {
        0 => put_all(log, 2, (1..514).map(|k| enable(k, 0, 1))),
        1 => put_all(log, 2, (0..4159).map(turn)),
        2 => put_all(log, 2, (0..4159).map(turn)).saturating_add(1),
        3 => put_head(log, 256),
        _ => put_all(log, 256, (0..256).map(link)),
    }
}

// The i-th event of the flows from 1 on from 0 to 1, each enabled and then disabled.
fn turn(i: u32) -> Event {
    let number = i / 2 + 1;
    if i % 2 == 0 {
        enable(number, 0, 1)
    } else {
        Event::Disable { number }
    }
}

// The event that enables the flow from a container of 256 to the next, and from the last to the first.
fn link(c: u32) -> Event {
    let from = c % 256;
    enable(from + 1, from, (from + 1) % 256)
}

// Writes n and these events, and answers the position after them.
fn put_all<I: Iterator<Item = Event> + Drop>(log: &mut [u8], n: u32, events: I) -> usize
    requires can { I.can_next events }
    requires ends { IsFinite (I.remaining events) }
{
    let mut at = put_head(log, n);
    for event in events {
        at = put(log, at, event);
    }
    at
}

// Writes n at the start, and answers the position after it, or 0 where there is no room, as in `put`.
fn put_head(log: &mut [u8], n: u32) -> usize {
    eventlog::write_head(log, n).unwrap_or(0)
}

// Writes a record, and answers the position after it, or `at` where there is no room: a log that is too long is cut,
// and then runs so.
fn put(log: &mut [u8], at: usize, event: Event) -> usize {
    eventlog::write_record(log, at, event).unwrap_or(at)
}

// The event that enables a flow.
fn enable(number: u32, from: u32, to: u32) -> Event {
    Event::Enable { number, from, to }
}
