// The refusals (document 01, 'Table of refusals'), and, in specs/, their order for the definitions of the crates above.
#![tactic(auto)]

ghost use Rattle.std.specs.Prelude.{◌≡◌, Some, decimal};
ghost use Rattle.refusal.specs.Number.{number_of};

use std::fmt;

// Why something is refused, with the paper's number.
#[derive(Clone, Copy, Debug, PartialEq, Eq)]
pub enum Refusal {
    // 'cut short': the bytes end before the number or record does
    Truncated = 1,
    // 'long number': not the shortest form, or more than the width allows
    Overlong = 2,
    UnknownKind = 3,
    // 'no such holder'
    NoSuchContainer = 4,
    // 'same holder'
    SelfFlow = 5,
    // 'old number'
    StaleNumber = 6,
    // 'rack full'
    TableFull = 7,
    // 'not open'
    NotEnabled = 8,
    BadSize = 9,
    ShortOutput = 10,
    // 'sets full'
    PolicyFull = 11,
    // 'unsound book'
    InvalidState = 12,
}

impl From<Refusal> for u32 {
    ghost from_gives = { λ refusal number. number ≡ number_of refusal };

    // The paper's number.
    fn from(refusal: Refusal) -> u32 {
        refusal as u32
    }
}

impl fmt::Display for Refusal {
    ghost output = { λ refusal. Some (decimal (number_of refusal)) };

    // The paper's number, in decimal.
    fn fmt<W: fmt::Write>(&self, f: &mut fmt::Formatter<W>) -> fmt::Result {
        write!(f, "{}", u32::from(*self))
    }
}
