// Bytes, numbers, sets and answers, as a script prints them.
ghost use Rattle.std.specs.Prelude.{◌≡◌, ◌++◌, [], Some, IfSome, IfOk, IfErr, OnOk, codes, cond, decimal, filter, fold};
ghost use Rattle.std.specs.List.{flat_map, range_with_len};
ghost use Rattle.std.specs.Fmt.{◌++?◌};
ghost use Rattle.std.specs.Io.KnownBytes.{Appends};
ghost use Rattle.refusal.specs.Number.{number_of};
ghost use Rattle.tagset.specs.Set.{has};

use refusal::Refusal;
use std::fmt::Display;
use std::io::Write;
use std::{fmt, io};
use tagset::TagSet;

// These, with a space before each.
#[derive(Clone, Copy)]
pub struct Spaced<'a, T>(pub &'a [T]);

impl<T: Display> Display for Spaced<'_, T> {
    ghost output = { λ s. fold (λ text item. text ++? (Some (codes " ") ++? T.output item)) (Some []) s.0.now };

    fn fmt<W: fmt::Write>(&self, f: &mut fmt::Formatter<W>) -> fmt::Result {
        for item in self.0 {
            write!(f, " {item}")?;
        }
        Ok(())
    }
}

// The tags, rising, with a space before each.
#[derive(Clone, Copy)]
pub struct Tags(pub TagSet);

impl Display for Tags {
    ghost output = { λ s. Some (flat_map (λ tag. codes " " ++ decimal tag) (filter (has s.0) (range_with_len 0 256))) };

    fn fmt<W: fmt::Write>(&self, f: &mut fmt::Formatter<W>) -> fmt::Result {
        let set = self.0;
        // No `filter`: a loop over one with an invariant does not check where the function has a type parameter.
        for tag in 0..256 {
            if set.contains(tag) {
                write!(f, " {tag}")?;
            }
        }
        Ok(())
    }
}

// Yes or no.
pub fn yes(b: bool) -> &'static str
    ensures { result.now ≡ cond b (codes "yes") (codes "no") }
{
    if b { "yes" } else { "no" }
}

// Writes what reading answers: what was read, and the position after it.
pub fn read<W: Write, T: Display + Drop>(
    out: &mut W,
    reply: Result<(T, usize), Refusal>,
) -> io::Result<()>
    ensures read { OnOk result (IfOk reply (λ come. IfSome
        (Some (codes ": ") ++? (T.output come.0 ++? Some (codes ", next " ++ decimal come.1)))
        (Appends (W.contents out.old) (W.contents out.new)))) }
    ensures refused { OnOk result (IfErr reply (λ refusal.
        Appends (W.contents out.old) (W.contents out.new) (codes ": refused " ++ decimal (number_of refusal)))) }
{
    match reply {
        Ok((value, next)) => write!(out, ": {value}, next {next}"),
        Err(refusal) => write!(out, ": refused {refusal}"),
    }
}

// Writes what writing answers, and what it leaves.
pub fn written<W: Write>(out: &mut W, reply: Result<usize, Refusal>, left: &[u8]) -> io::Result<()>
    ensures next { OnOk result (IfOk reply (λ next.
        Appends (W.contents out.old) (W.contents out.new)
        (codes ": next " ++ (decimal next ++ (codes ", leaves" ++ flat_map (λ b. codes " " ++ decimal b) left.now))))) }
    ensures refused { OnOk result (IfErr reply (λ refusal.
        Appends (W.contents out.old) (W.contents out.new)
        (codes ": refused " ++ (decimal (number_of refusal)
        ++ (codes ", leaves" ++ flat_map (λ b. codes " " ++ decimal b) left.now))))) }
{
    let left = Spaced(left);
    match reply {
        Ok(next) => write!(out, ": next {next}, leaves{left}"),
        Err(refusal) => write!(out, ": refused {refusal}, leaves{left}"),
    }
}
