// Streams, for the programs: input read to its end, and a text printed whole. The end of the input is kept apart from a
// read that fails, and a line on standard error says what failed.
//
// Of a reader whose bytes are known the contracts say which it gave; which bytes a file or standard input brings and a
// write takes no contract can say. A function `try_..` writes what the one without `try_` does, and answers Ok only
// where all of the text came, or all of the line; where it answers Err, or nothing is answered, a beginning, perhaps
// nothing, may be all that came. The functions without `try_` stay beside those, since they cannot fail.
#![tactic(auto)]

ghost use Rattle.std.specs.Prelude.{◌≡◌, ◌↔◌, map, length, IsTrue, OnOk};
ghost use Rattle.std.specs.Io.KnownBytes.{Appends};
ghost use Rattle.std.specs.IoError.{error_kind};
ghost use Rattle.stream.specs.Stream.{step_of, visible_byte, line_of, Within, Came, Begins, Says, Tells, Prints};

use std::io;
use std::io::{ErrorKind, Read, Write};

// Reads until the input ends, `buf` is full or a read fails, and answers how many bytes came. These stand at the start
// of `buf`: where they don't fill it the end was seen, and where they do, more may come. A short read is followed by
// another. An interrupted one is tried again, 2^64 - 1 times in all, since a proved loop has to end.
// No `read_to_end` of std: it needs a Vec, and there is no heap, by the project's rule.
pub fn read_to_end<R: Read>(reader: &mut R, buf: &mut [u8]) -> io::Result<usize>
    ensures within { Within result (length buf.new) }
    ensures came { Came (R.remaining reader.old) (R.remaining reader.new) result buf.new }
{
    let mut done = 0;
    let mut tries = 0..u64::MAX;
    while done < buf.len() {
        match unless_interrupted(reader.read(&mut buf[done..]))? {
            Some(0) => break,
            Some(more) => done += more,
            None if tries.next().is_some() => {}
            None => return Err(io::Error::from(ErrorKind::Interrupted)),
        }
    }
    Ok(done)
}

// What a read says that answered `read`: how many bytes came, 0 at the end, or None where it was interrupted, so that
// it is tried again. Any other failure is handed on as it is.
fn unless_interrupted(read: io::Result<usize>) -> io::Result<Option<usize>>
    ensures { result ≡ step_of read }
{
    match read {
        Ok(n) => Ok(Some(n)),
        Err(error) if is_interrupted(&error) => Ok(None),
        Err(error) => Err(error),
    }
}

// Whether a signal interrupted the call.
fn is_interrupted(error: &io::Error) -> bool
    ensures { IsTrue result ↔ (error_kind error.now ≡ ErrorKind.Interrupted) }
{
    error.kind() == ErrorKind::Interrupted
}

// Writes all of `text` to `out`, the last that a program prints, since its end closes standard output. If a write
// fails, a line on `errors` has `what` and the reason.
// The two writers are no struct: where nothing is to print a line is told to `errors` alone.
pub fn print_and_close<W: Write, E: Write>(out: &mut W, errors: &mut E, text: &[u8], what: &[u8])
    ensures { Prints Says (W.contents out.old) (W.contents out.new)
        (E.contents errors.old) (E.contents errors.new) text.now what.now }
{
    // Where the line fails too, nobody can be told.
    let _ = try_print(out, errors, text, what);
}

// As `print_and_close`, and answers Ok where the text or the line is there whole.
pub fn try_print<W: Write, E: Write>(
    out: &mut W,
    errors: &mut E,
    text: &[u8],
    what: &[u8],
) -> io::Result<()>
    ensures prints { Prints Says (W.contents out.old) (W.contents out.new)
        (E.contents errors.old) (E.contents errors.new) text.now what.now }
    ensures whole { OnOk result (Prints Tells (W.contents out.old) (W.contents out.new)
        (E.contents errors.old) (E.contents errors.new) text.now what.now) }
{
    // No `or_else`: nothing is known of what its closure leaves in `errors`.
    match write_whole(out, text) {
        Ok(()) => Ok(()),
        Err(error) => try_fail(errors, what, error),
    }
}

// Writes all of `text`, and hands on what the writer kept back. A short write is followed by another, and an
// interrupted one is tried again, as a read is.
// No `write_all` of std: where it fails it promises nothing of what came.
fn write_whole<W: Write>(out: &mut W, text: &[u8]) -> io::Result<()>
    ensures begins { Begins (W.contents out.old) (W.contents out.new) text.now }
    ensures whole { OnOk result (Appends (W.contents out.old) (W.contents out.new) text.now) }
{
    let mut done = 0;
    let mut tries = 0..u64::MAX;
    while done < text.len() {
        match out.write(&text[done..]) {
            Ok(0) => return Err(io::Error::new(ErrorKind::WriteZero, "No byte was taken")),
            Ok(more) => done += more,
            Err(error) if is_interrupted(&error) && tries.next().is_some() => {}
            Err(error) => return Err(error),
        }
    }
    out.flush()
}

// Writes a line to `errors`: what failed, as the caller names it, a colon and the system's text for the reason.
pub fn fail<E: Write>(errors: &mut E, what: &[u8], error: io::Error)
    ensures { Says (E.contents errors.old) (E.contents errors.new) what.now }
{
    // Where the line fails, nobody can be told.
    let _ = try_fail(errors, what, error);
}

// As `fail`, and answers Ok where the line is there whole.
pub fn try_fail<E: Write>(errors: &mut E, what: &[u8], error: io::Error) -> io::Result<()>
    ensures begins { Says (E.contents errors.old) (E.contents errors.new) what.now }
    ensures whole { OnOk result (Tells (E.contents errors.old) (E.contents errors.new) what.now) }
{
    // There is no heap, by the project's rule, so room is fixed. The system's texts have some 50 bytes.
    let mut text = io::Cursor::new([0u8; 320]);
    let _ = write!(text, "{error}");
    let n = (text.position() as usize).min(320);
    let reason = std::str::from_utf8(&text.get_ref()[..n]).unwrap_or("");
    try_say(errors, what, without_number(reason).as_bytes())
}

// The text of an error without its number, which `Display` puts behind it.
fn without_number(text: &str) -> &str {
    text.rsplit_once(" (os error ")
        .map_or(text, |(reason, _)| reason)
}

// Writes the line that has `what` and `reason`.
pub fn say<E: Write>(errors: &mut E, what: &[u8], reason: &[u8])
    ensures { Begins (E.contents errors.old) (E.contents errors.new) (line_of what.now reason.now) }
{
    // Where the line fails, nobody can be told.
    let _ = try_say(errors, what, reason);
}

// As `say`, and answers Ok where the line is there whole.
pub fn try_say<E: Write>(errors: &mut E, what: &[u8], reason: &[u8]) -> io::Result<()>
    ensures begins { Begins (E.contents errors.old) (E.contents errors.new) (line_of what.now reason.now) }
    ensures whole { OnOk result
        (Appends (E.contents errors.old) (E.contents errors.new) (line_of what.now reason.now)) }
{
    write_whole(errors, what)?;
    write_whole(errors, b": ")?;
    write_whole(errors, reason)?;
    write_whole(errors, b"\n")
}

// Puts a question mark in the place of each control byte of a name, so that a newline in it does not make two lines.
pub fn one_line(name: &mut [u8])
    ensures { name.new ≡ map visible_byte name.old }
{
    for b in name.iter_mut() {
        *b = visible(*b);
    }
}

// A byte as a line shows it.
fn visible(b: u8) -> u8
    ensures { result ≡ visible_byte b }
{
    if b.is_ascii_control() { b'?' } else { b }
}

#[cfg(test)]
mod tests {
    use super::*;
    use std::test::Fail;

    // Is interrupted, then gives a byte, then fails.
    #[derive(Drop)]
    struct Broken {
        turn: u8,
    }

    impl Read for Broken {
        fn read(&mut self, buf: &mut [u8]) -> io::Result<usize> {
            self.turn = self.turn.saturating_add(1);
            if self.turn == 1 || buf.is_empty() {
                return Err(io::Error::from(ErrorKind::Interrupted));
            }
            if self.turn == 2 {
                buf[0] = b'x';
                return Ok(1);
            }
            Err(io::Error::from_raw_os_error(5))
        }
    }

    #[test]
    fn the_end_is_told_from_a_full_buffer(rt: HostRuntime) {
        let mut buf = [0u8; 3];
        let short = read_to_end(&mut io::Cursor::new(b"ab"), &mut buf);
        assert!(rt; matches!(short, Ok(2)));
        assert_eq!(rt; &buf, b"ab\0");
        let long = read_to_end(&mut io::Cursor::new(b"abc"), &mut buf);
        assert!(rt; matches!(long, Ok(3)));
    }

    #[test]
    fn a_failure_in_mid_stream_is_answered(rt: HostRuntime) {
        let mut buf = [0u8; 3];
        let read = read_to_end(&mut Broken { turn: 0 }, &mut buf);
        assert_eq!(rt; &buf, b"x\0\0");
        assert_eq!(rt; read.map_err(|error| error.raw_os_error()), Err(Some(5)));
    }

    #[test]
    fn a_line_has_the_text_of_the_system_without_its_number(rt: HostRuntime) -> Result<(), Fail> {
        let mut errors = Vec::new(rt.alloc());
        fail(&mut errors, b"tally: log", io::Error::from_raw_os_error(2));
        assert_eq!(rt;
            errors.as_slice(),
            b"tally: log: No such file or directory\n".as_slice()
        );
        Ok(())
    }

    #[test]
    fn a_text_that_finds_no_room_is_cut_and_told(rt: HostRuntime) -> Result<(), Fail> {
        let mut room = [0u8; 3];
        let mut out = io::Cursor::new(&mut room[..]);
        let mut errors = Vec::new(rt.alloc());
        print_and_close(&mut out, &mut errors, b"text", b"tally: output");
        assert_eq!(rt;
            errors.as_slice(),
            b"tally: output: No byte was taken\n".as_slice()
        );
        assert_eq!(rt; &room, b"tex");
        Ok(())
    }
}
