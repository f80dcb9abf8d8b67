// Numbers in groups of seven bits.
// Room is fixed, as in the product, which has no heap.
use sampleline::Line;
use sampleline::print::{Spaced, read, written};
use std::io;
use std::io::Write;

// `number V`: the bytes of V.
pub fn number<W: Write>(out: &mut W, line: &Line) -> io::Result<()> {
    let mut bytes = [0u8; 10];
    // A number has at most ten bytes, so it is never refused.
    let length = leb128::encode(&mut bytes, 0, line.get(0)).unwrap_or(0);
    write!(out, ":{}", Spaced(bytes.get(..length).unwrap_or(&[])))
}

// `decode W P B..`: the number of at most W bits at position P of the bytes.
pub fn decode<W: Write>(out: &mut W, line: &Line, bytes: &[u8]) -> io::Result<()> {
    read(
        out,
        leb128::decode(bytes, line.get(1) as usize, line.small(0)),
    )
}

// `put P V`: V written at position P of three bytes of 7.
pub fn put<W: Write>(out: &mut W, line: &Line) -> io::Result<()> {
    let mut left = [7u8; 3];
    let reply = leb128::encode(&mut left, line.get(0) as usize, line.get(1));
    written(out, reply, &left)
}
