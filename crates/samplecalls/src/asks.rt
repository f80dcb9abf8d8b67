// Questions, the ranking, and what is stored. Room is fixed, as in the product, which has no heap.
ghost use Rattle.std.specs.Prelude.{◌++◌, ◌%◌, OnOk, codes, cond, decimal, eqb, filter, get_or};
ghost use Rattle.std.specs.List.{flat_map, range_with_len};
ghost use Rattle.question.specs.Question.{tags_of, size_asked, legal_of};
ghost use Rattle.state.specs.State.{state_in};
ghost use Rattle.tagset.specs.Set.{has};
ghost use Rattle.std.specs.Io.KnownBytes.{Appends};

use crate::print::{FlowText, HeaderText};
use model::Flow;
use sampleline::Line;
use sampleline::print::{Spaced, Tags, yes};
use state::{Header, Tracker};
use std::io;
use std::io::Write;

// `set C`: the container's set.
pub fn set<W: Write>(out: &mut W, line: &Line, tracker: &Tracker) -> io::Result<()>
    ensures { let asked = tags_of (state_in tracker.now) (get_or line.now.numbers.items 0 0 % 4294967296) in
        OnOk result (Appends (W.contents out.old) (W.contents out.new)
        (cond (eqb asked.refusal 0)
        (codes ":" ++ flat_map (λ tag. codes " " ++ decimal tag) (filter (has asked.value) (range_with_len 0 256)))
        (codes ": refused " ++ decimal asked.refusal))) }
{
    match question::tags_of(tracker, line.small(0)) {
        Ok(set) => write!(out, ":{}", Tags(set)),
        Err(refusal) => write!(out, ": refused {refusal}"),
    }
}

// `size C`: how many tags it has.
pub fn size<W: Write>(out: &mut W, line: &Line, tracker: &Tracker) -> io::Result<()>
    ensures { let asked = size_asked (state_in tracker.now) (get_or line.now.numbers.items 0 0 % 4294967296) in
        OnOk result (Appends (W.contents out.old) (W.contents out.new)
        (cond (eqb asked.refusal 0)
        (codes ": " ++ decimal asked.value)
        (codes ": refused " ++ decimal asked.refusal))) }
{
    match question::size_of(tracker, line.small(0)) {
        Ok(size) => write!(out, ": {size}"),
        Err(refusal) => write!(out, ": refused {refusal}"),
    }
}

// `legal C`: whether it may be sent.
pub fn legal<W: Write>(out: &mut W, line: &Line, tracker: &Tracker) -> io::Result<()>
    ensures { let asked = legal_of (state_in tracker.now) (get_or line.now.numbers.items 0 0 % 4294967296) in
        OnOk result (Appends (W.contents out.old) (W.contents out.new)
        (cond (eqb asked.refusal 0)
        (codes ": " ++ cond asked.value (codes "yes") (codes "no"))
        (codes ": refused " ++ decimal asked.refusal))) }
{
    match question::is_legal(tracker, line.small(0)) {
        Ok(legal) => write!(out, ": {}", yes(legal)),
        Err(refusal) => write!(out, ": refused {refusal}"),
    }
}

// `rank N`: the ranking into N places of 7, at most eight, and what they have then.
pub fn rank<W: Write>(out: &mut W, line: &Line, tracker: &Tracker) -> io::Result<()> {
    let n = (line.get(0) % 9) as usize;
    let mut places = [7u16; 8];
    let reply = ranking::rank(tracker, &mut places[..n]);
    let left = Spaced(&places[..n]);
    match reply {
        Ok(()) => write!(out, ": ranked{left}"),
        Err(refusal) => write!(out, ": refused {refusal}, leaves{left}"),
    }
}

// `view`: the sets of all containers.
pub fn view<W: Write>(out: &mut W, tracker: &Tracker) -> io::Result<()> {
    out.write_all(b":")?;
    for c in 0..tracker.header.containers {
        let set = tagstore::load_set(tracker.tags, c as usize);
        write!(out, " |{}", Tags(set))?;
    }
    Ok(())
}

// `list`: the enabled flows, each with its number and ends.
pub fn list<W: Write>(out: &mut W, header: Header, flows: &[Flow]) -> io::Result<()> {
    out.write_all(b":")?;
    for flow in flows.iter().take(header.count as usize) {
        write!(out, " | {}", FlowText(*flow))?;
    }
    Ok(())
}

// `now`: the header.
pub fn now<W: Write>(out: &mut W, now: Header) -> io::Result<()>
    ensures { OnOk result (Appends (W.contents out.old) (W.contents out.new) (codes ": n " ++ (decimal now.containers
        ++ (codes ", flows " ++ (decimal now.count ++ (codes ", greatest " ++ decimal now.greatest)))))) }
{
    write!(out, ": {}", HeaderText(now))
}
