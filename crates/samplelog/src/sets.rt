// Tag sets.
use sampleline::print::{Tags, yes};
use sampleline::{Line, set_of};
use std::io;
use std::io::Write;
use tagset::TagSet;

// `pair T.. 999 T..`: two sets, before 999, which is no tag, and behind it: their union, intersection and sizes,
// whether the first is part of the second, and equal to it. With no 999 all of a line's 64 places are before it, and
// those that it leaves out count as tag 0.
pub fn pair<W: Write>(out: &mut W, line: &Line) -> io::Result<()> {
    let tags = line.from(0);
    let middle = tags.iter().position(|tag| *tag == 999);
    let (front, back) = tags.split_at(middle.unwrap_or(tags.len()));
    let left_out = if middle.is_none() && tags.len() < 64 {
        TagSet::single(0)
    } else {
        TagSet::empty()
    };
    let first = set_of(front).union(left_out);
    let second = set_of(back);
    write!(out, ": union{}", Tags(first.union(second)))?;
    write!(out, ", intersection{}", Tags(first.intersection(second)))?;
    write!(out, ", sizes {} {}", first.size(), second.size())?;
    write!(
        out,
        ", part {}, equal {}",
        yes(first.is_subset(second)),
        yes(first == second)
    )
}

// `under N`: the set of all tags below N.
pub fn under<W: Write>(out: &mut W, line: &Line) -> io::Result<()> {
    let set = TagSet::below(line.small(0));
    write!(out, ": size {},{}", set.size(), Tags(set))
}

// `over N T..`: whether the set names a tag of N or more.
pub fn over<W: Write>(out: &mut W, line: &Line) -> io::Result<()> {
    write!(
        out,
        ": {}",
        yes(set_of(line.from(1)).exceeds(line.small(0)))
    )
}
