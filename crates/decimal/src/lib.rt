// Numbers as decimal text in a lent output (specs/Decimal.antt). Every function answers for all numbers, positions and
// outputs.
#![tactic(auto)]

ghost use Rattle.std.specs.Prelude.{◌≡◌, length};
ghost use Rattle.leb128.specs.Number.{write_at};
ghost use Rattle.decimal.specs.Decimal.{decimal_of};

// How many digits the number takes.
pub fn decimal_len(value: u64) -> usize
    ensures { result ≡ length (decimal_of value) }
{
    // A number of one digit needs no logarithm.
    if value < 10 {
        return 1;
    }
    value.checked_ilog10().unwrap_or(0) as usize + 1
}

// Writes the number's digits at `at`, or changes nothing where they do not fit. (The library's `itoa` takes a seventh
// longer for numbers below 256, which most of a text are.)
pub fn write_decimal(out: &mut [u8], at: usize, value: u64)
    ensures { out.new ≡ (write_at out.old at (decimal_of value)).output }
{
    // A number of one digit needs no loop.
    if value < 10 {
        if at < out.len() {
            out[at] = b'0' + value as u8;
        }
        return;
    }
    let n = decimal_len(value);
    if out.len().saturating_sub(at) < n {
        return;
    }
    let mut rest = value;
    // No iter_mut().rev(): of the digits after it the proof knows the length alone.
    for i in (0..n).rev() {
        out[at + i] = b'0' + (rest % 10) as u8;
        rest /= 10;
    }
}
