// The program: reads a log to its end, from standard input or from the file that is named, and prints its report. If a
// read fails nothing is printed: the report of a part looks just like the report of a whole log.
#![tactic(auto)]

ghost use Rattle.std.specs.Prelude.{◌≡◌, ◌≤◌, length, take};
ghost use Rattle.io.specs.Counts.{IsPrefixLen};
ghost use Rattle.tallytext.specs.Text.{printed_of};
ghost use Rattle.tally.specs.Program.{AsksFor, Shows};

use std::env::FillError;
use std::fs::File;
use std::io;
use std::io::{ErrorKind, Read, Write};
use std::rt::{Env, Files};

fn main(rt: HostRuntime) {
    // What fails beyond this has no line on standard error, and nobody can be told.
    let _ = answer(&rt, &mut rt.stdin(), &mut rt.stdout(), &mut rt.stderr());
}

// Does what the arguments ask for. It answers Ok where a text was printed or a line on standard error was told. (The
// two writers are no struct, here and below: see `stream`.)
fn answer<P: Env + Files, R: Read, W: Write, E: Write>(
    rt: &P,
    reader: &mut R,
    out: &mut W,
    errors: &mut E,
) -> io::Result<()> {
    if is_given(rt, 2) {
        return say_usage(errors);
    }
    // How a line on standard error begins: the program's name, and the argument. There is no heap, by the project's
    // rule, so room is fixed: a path has at most 4,096 bytes.
    let mut line = [0u8; 4103];
    line[..7].copy_from_slice(b"tally: ");
    match rt.arg(1, &mut line[7..]) {
        Ok(n) => match asked_by(&line[7..7 + n]) {
            Asked::Help => print_help(out, errors),
            Asked::File => show_file(rt, out, errors, &mut line[..7 + n]),
            Asked::Neither => say_usage(errors),
        },
        Err(FillError::NotPresent) => show(reader, out, errors, b"tally: standard input"),
        Err(FillError::TooLong) => {
            stream::try_say(errors, b"tally: the argument", b"File name too long")
        }
    }
}

// Whether the program was started with an argument of this number.
fn is_given<P: Env>(rt: &P, i: usize) -> bool {
    !matches!(rt.arg(i, &mut []), Err(FillError::NotPresent))
}

// What the argument asks for.
#[derive(Clone, Copy)]
enum Asked {
    Help,
    File,
    Neither,
}

// What a word asks for.
fn asked_by(word: &[u8]) -> Asked
    ensures { AsksFor word.now result }
{
    match word {
        b"--help" => Asked::Help,
        [] | [b'-', ..] => Asked::Neither,
        _ => Asked::File,
    }
}

fn print_help<W: Write, E: Write>(out: &mut W, errors: &mut E) -> io::Result<()> {
    stream::try_print(
        out,
        errors,
        b"usage: tally [FILE]

Reads the log of a shift, from FILE or else from standard input, and prints
which tags may have reached each container: a line for each, those with most
tags first, with the container, how many tags it has, and its tags. The last
line is one of

    events E gain G   the whole log was run: E events, which added G pairs
                      of a tag and a container
    refused K at B    refused for reason K, at byte B of the log: the lines
                      above, if any, are those of the part before it

A log has at most 16,384 bytes. If a read fails there is no text, and a line on
standard error says why. If a write fails, a line on standard error says why,
and a part of the text may be there: it is whole only if its last line is one
of these two and ends in a newline. The exit status is 0, unless a signal ends
the program. A FILE whose name begins with - is given as ./-NAME. README.md has
the form of a log, the reasons of a refusal, and a test that a text is whole.

    --help   print this text
",
        b"tally: standard output",
    )
}

fn say_usage<E: Write>(errors: &mut E) -> io::Result<()> {
    errors.write_all(b"tally: give no argument, or the name of a file, or --help\n")
}

// Shows the report of the file whose name is in `line`, after the first 7 bytes.
fn show_file<P: Files, W: Write, E: Write>(
    rt: &P,
    out: &mut W,
    errors: &mut E,
    line: &mut [u8],
) -> io::Result<()>
    requires { 7 ≤ length line.old }
{
    let opened = open(rt, &line[7..]);
    stream::one_line(line);
    match opened {
        Ok(mut file) => show(&mut file, out, errors, line),
        Err(error) => stream::try_fail(errors, line, error),
    }
}

// Opens the file of this name to be read. std takes a name that is text, so any other is refused.
fn open<P: Files>(rt: &P, name: &[u8]) -> io::Result<P::File> {
    let name = std::str::from_utf8(name).map_err(|_| io::Error::new(
        ErrorKind::InvalidFilename,
        "The name is not UTF-8",
    ))?;
    File::open(rt, name)
}

// Prints the report of the log that comes from `reader`. If a read fails, a line on standard error has `name` and the
// reason. The input has room for one byte more than is run, so that longer input is told from input of 16,384 bytes.
fn show<R: Read, W: Write, E: Write>(
    reader: &mut R,
    out: &mut W,
    errors: &mut E,
    name: &[u8],
) -> io::Result<()>
    ensures { Shows (R.remaining reader.old) (R.remaining reader.new)
        (W.contents out.old) (W.contents out.new) (E.contents errors.old) (E.contents errors.new) name.now result }
{
    // There is no heap, by the project's rule, so room is fixed: for a byte more than is run, and for the longest text.
    let mut input = [0u8; 16385];
    let mut text = [0u8; 264256];
    match stream::read_to_end(reader, &mut input) {
        Ok(n) => {
            let length = report_of(&input[..n], &mut text);
            stream::try_print(out, errors, &text[..length], b"tally: standard output")
        }
        Err(error) => stream::try_fail(errors, name, error),
    }
}

// Puts the report of these bytes, run in a new tracker, at the start of `text`, and answers its length. The text always
// fits, so it is never refused.
fn report_of(bytes: &[u8], text: &mut [u8]) -> usize
    requires { 264256 ≤ length text.old }
    ensures prefix_len { IsPrefixLen result text.new }
    ensures text_after { take result text.new ≡ printed_of bytes.now }
{
    report::text(bytes, text).unwrap_or(0)
}
