// Runs a script: prints each of its lines, and behind it what the library answers. The script is the file
// stdin, what must be printed the file stdout.
// The script and what is printed are on the heap; all else has fixed room, as in the product.
#![tactic(auto)]

use model::Flow;
use samplecalls::changes::flow_of;
use samplecalls::storage::{Room, Storage, front};
use samplecalls::{asks, changes, pokes};
use sampleline::Line;
use samplelog::{logs, numbers, sets};
use sampleruns::{large, runs};
use state::{Header, Tracker};
use std::io;
use std::io::{BufWriter, Read, Write};

fn main(rt: HostRuntime) -> io::Result<()> {
    let mut script = Vec::new(rt.alloc());
    // A read that fails ends the script: what came before it is run.
    let _ = rt.reader().take(32768).read_to_end(&mut script);
    let mut out = BufWriter::new(rt.alloc(), io::writer(&rt))?;
    run(&mut out, &script)?;
    out.flush()
}

// Each line in turn, from no tracker on.
fn run<W: Write>(out: &mut W, script: &[u8]) -> io::Result<()> {
    let mut header = Header::NONE;
    let mut tags = [0u64; 1028];
    let mut policies = [0u64; 4112];
    let mut counts = [0u8; 257];
    let mut flows = [Flow::NONE; 600];
    let mut room = Room::ALL;
    let mut storage = Storage {
        header: &mut header,
        tags: &mut tags,
        policies: &mut policies,
        counts: &mut counts,
        flows: &mut flows,
    };
    if script.is_empty() {
        return Ok(());
    }
    for text in script
        .strip_suffix(b"\n")
        .unwrap_or(script)
        .split(|byte| *byte == b'\n')
    {
        out.write_all(text)?;
        let line = Line::of(text);
        room = room_after(out, &line, room)?;
        lend(out, &line, room, &mut storage)?;
        out.write_all(b"\n")?;
    }
    Ok(())
}

// Does what a line says with so much of each list. `flow I K F T`, a record of the flow table, `list` and what the runs
// of `tally` leave go by 512 records of the table, however many are lent.
fn lend<W: Write>(out: &mut W, line: &Line, room: Room, whole: &mut Storage) -> io::Result<()> {
    match line.word {
        b"flow" => Ok(flowtable::put(
            front(whole.flows, 512),
            line.small(0) as usize,
            flow_of(line.from(1)),
        )),
        b"list" => asks::list(out, *whole.header, front(whole.flows, 512)),
        _ => {
            let records = match line.word {
                b"tally" | b"short" | b"large" => 512,
                _ => room.flows,
            };
            let mut storage = Storage {
                header: &mut *whole.header,
                tags: front(whole.tags, room.tags),
                policies: front(whole.policies, room.policies),
                counts: front(whole.counts, room.counts),
                flows: front(whole.flows, records),
            };
            step(out, line, room.flows, &mut storage)
        }
    }
}

// `room T P C F`: from now on so many words of tags, words of policy sets, counts and records of the flow table are
// lent. There are 600 records; those past the 512th are not judged.
fn room_after<W: Write>(out: &mut W, line: &Line, room: Room) -> io::Result<Room> {
    if line.word != b"room".as_slice() {
        return Ok(room);
    }
    let asked = Room::of(line);
    if asked.is_there() {
        return Ok(asked);
    }
    out.write_all(b": more than there is")?;
    Ok(room)
}

// Does what a line says, if it has numbers enough. `large` replays in so many records.
fn step<W: Write>(
    out: &mut W,
    line: &Line,
    records: usize,
    storage: &mut Storage,
) -> io::Result<()> {
    if line.word == b"large".as_slice() {
        return large::large(
            out,
            line,
            records,
            storage.header,
            storage.tags,
            storage.policies,
            storage.counts,
            storage.flows,
        );
    }
    match line.bytes(first_byte(line.word)) {
        Some(bytes) => change(out, line, &bytes, storage),
        None => out.write_all(b": too few numbers"),
    }
}

// A line's numbers are bytes too, from this one on.
fn first_byte(word: &[u8]) -> usize {
    match word {
        b"item" | b"short" => 1,
        b"decode" => 2,
        b"lent" => 3,
        b"judge" => 4,
        _ => 0,
    }
}

// Does what a line says. The words that change the tracker, or write past the calls: `word I V` and `policy I V` a word
// of the tag sets, or of the policy sets, and `count C V` how many policy sets a container has.
fn change<W: Write>(
    out: &mut W,
    line: &Line,
    bytes: &[u8],
    storage: &mut Storage,
) -> io::Result<()> {
    match line.word {
        b"start" => changes::start(out, line, storage),
        b"fill" => Ok(changes::fill(
            line,
            storage.header,
            storage.tags,
            &mut *storage.policies,
            &mut *storage.counts,
            storage.flows,
        )),
        b"header" => Ok(*storage.header = pokes::header(line)),
        b"word" => Ok(flowtable::put(storage.tags, line.get(0) as usize, line.get(1))),
        b"policy" => Ok(flowtable::put(storage.policies, line.get(0) as usize, line.get(1))),
        b"count" => Ok(flowtable::put(
            storage.counts,
            line.get(0) as usize,
            (line.get(1) % 256) as u8,
        )),
        b"exec" => Ok(pokes::exec(line, storage.tags)),
        b"replay" => runs::replay_log(out, bytes, storage),
        b"lent" => samplelent::lent(out, line, bytes, storage),
        b"tally" => runs::tally(out, bytes, storage),
        b"short" => runs::short(out, line, bytes, storage),
        _ => call(out, line, bytes, storage),
    }
}

// The words of the calls, which are lent the lists one by one.
fn call<W: Write>(out: &mut W, line: &Line, bytes: &[u8], storage: &mut Storage) -> io::Result<()> {
    match line.word {
        b"enable" => changes::enable(
            out,
            line,
            storage.header,
            storage.tags,
            &mut *storage.policies,
            &mut *storage.counts,
            storage.flows,
        ),
        b"disable" => changes::disable(
            out,
            line,
            storage.header,
            &mut *storage.tags,
            &mut *storage.policies,
            &mut *storage.counts,
            storage.flows,
        ),
        b"add" => changes::add(
            out,
            line,
            storage.header,
            &mut *storage.tags,
            storage.policies,
            storage.counts,
            &mut *storage.flows,
        ),
        _ => ask(out, line, bytes, &storage.seen()),
    }
}

// The words that ask the tracker.
fn ask<W: Write>(out: &mut W, line: &Line, bytes: &[u8], tracker: &Tracker) -> io::Result<()> {
    match line.word {
        b"set" => asks::set(out, line, tracker),
        b"size" => asks::size(out, line, tracker),
        b"legal" => asks::legal(out, line, tracker),
        b"rank" => asks::rank(out, line, tracker),
        b"view" => asks::view(out, tracker),
        b"now" => asks::now(out, tracker.header),
        _ => read(out, line, bytes),
    }
}

// The words on numbers, logs and sets. `room` is done already. A line that is empty, or begins with # or a byte of 0,
// is a note; one that begins with a space has an empty word, which is none.
fn read<W: Write>(out: &mut W, line: &Line, bytes: &[u8]) -> io::Result<()> {
    match line.word {
        b"number" => numbers::number(out, line),
        b"decode" => numbers::decode(out, line, bytes),
        b"put" => numbers::put(out, line),
        b"log" => logs::log(out, bytes),
        b"item" => logs::item(out, line, bytes),
        b"write" => logs::write(out, line),
        b"begin" => logs::begin(out, line),
        b"bytes" => logs::bytes(out, line),
        b"judge" => runs::judge(out, line, bytes),
        b"pair" => sets::pair(out, line),
        b"under" => sets::under(out, line),
        b"over" => sets::over(out, line),
        b"room" | [0 | b'#', ..] => Ok(()),
        b"" if line.from(0).is_empty() => Ok(()),
        _ => out.write_all(b": no such word"),
    }
}
