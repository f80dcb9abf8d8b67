// Records and heads, read and written.
// Room is fixed, as in the product, which has no heap.
ghost use Rattle.std.specs.Prelude.{◌++◌, Some, codes, cond, decimal, drop, eqb, get_or};
ghost use Rattle.std.specs.List.{flat_map};
ghost use Rattle.eventlog.specs.Answer.{fields_of};

use eventlog::Event;
use sampleline::print::{read, written};
use sampleline::{Line, small};
use std::io::Write;
use std::{fmt, io};

// An event, as a script prints it: what happens, and the flow's numbers.
#[derive(Clone, Copy)]
pub struct EventText(pub Event);

impl fmt::Display for EventText {
    ghost output = { λ e. Some (cond (eqb (get_or (fields_of e.0) 0 0) 0) (codes "enable") (codes "disable")
        ++ flat_map (λ n. codes " " ++ decimal n) (drop 1 (fields_of e.0))) };

    fn fmt<W: fmt::Write>(&self, f: &mut fmt::Formatter<W>) -> fmt::Result {
        match self.0 {
            Event::Enable { number, from, to } => write!(f, "enable {number} {from} {to}"),
            Event::Disable { number } => write!(f, "disable {number}"),
        }
    }
}

// `log B..`: n and the events of a log, up to its end or the refusal.
pub fn log<W: Write>(out: &mut W, bytes: &[u8]) -> io::Result<()> {
    match eventlog::read_head(bytes) {
        Ok((n, first)) => {
            write!(out, ": n {n}")?;
            records(out, bytes, first)
        }
        Err(refusal) => write!(out, ": refused {refusal} at 0"),
    }
}

// The events of the records from a position on, at most 64.
fn records<W: Write>(out: &mut W, bytes: &[u8], first: usize) -> io::Result<()> {
    let mut at = first;
    for _ in 0..64 {
        if bytes.len() <= at {
            return out.write_all(b", end");
        }
        match eventlog::read_record(bytes, at) {
            Ok((event, next)) => {
                write!(out, ", {}", EventText(event))?;
                at = next;
            }
            Err(refusal) => return write!(out, ", refused {refusal} at {at}"),
        }
    }
    Ok(())
}

// `item P B..`: the record at position P of the bytes.
pub fn item<W: Write>(out: &mut W, line: &Line, bytes: &[u8]) -> io::Result<()> {
    let record = eventlog::read_record(bytes, line.get(0) as usize);
    read(out, record.map(|(event, next)| (EventText(event), next)))
}

// The event of these numbers: a disable, where there is no more than its number.
fn event_of(numbers: &[u64]) -> Event {
    let number = small(numbers, 0);
    if numbers.len() == 1 {
        return Event::Disable { number };
    }
    Event::Enable {
        number,
        from: small(numbers, 1),
        to: small(numbers, 2),
    }
}

// `write P K` or `write P K F T`: the record of this event, written at position P of eight bytes of 7.
pub fn write<W: Write>(out: &mut W, line: &Line) -> io::Result<()> {
    let mut left = [7u8; 8];
    let reply = eventlog::write_record(&mut left, line.get(0) as usize, event_of(line.from(1)));
    written(out, reply, &left)
}

// `begin N`: N at the start of a log, written into four bytes of 7.
pub fn begin<W: Write>(out: &mut W, line: &Line) -> io::Result<()> {
    let mut left = [7u8; 4];
    let reply = eventlog::write_head(&mut left, line.small(0));
    written(out, reply, &left)
}

// `bytes K` or `bytes K F T`: how many bytes the record of this event takes.
pub fn bytes<W: Write>(out: &mut W, line: &Line) -> io::Result<()> {
    write!(out, ": {}", eventlog::record_len(event_of(line.from(0))))
}
