// Lines of a script, and what is printed of them. A line is a word, and behind it numbers with single spaces between
// them.
#![tactic(auto)]

ghost use Rattle.std.specs.Prelude.{◌≡◌, ℕ, ◌+◌, ◌-◌, ◌%◌, ◌^◌, ◌<◌, ◌&&◌, [], min, ltb, eqb, length, get_or, drop, map, is_none, IfSome, decimal};
ghost use Rattle.std.specs.List.{before_first, list_any, slice_split};
ghost use Rattle.tagset.specs.Set.{has};

pub mod print;

use arrayvec::ArrayVec;
use tagset::TagSet;

// A line: its word, and the numbers behind it, at most 64.
#[derive(Clone, Drop)]
pub struct Line<'a> {
    pub word: &'a [u8],
    numbers: ArrayVec<u64, 64>,
}

impl Line<'_> {
    // Takes a line apart. Numbers past the 64th are left out.
    pub fn of(text: &[u8]) -> Line<'_>
        ensures word { result.word.now ≡ before_first (λ byte. eqb byte 32) text.now }
        ensures count { length result.numbers.items ≡ min 64 (length (slice_split (λ byte. eqb byte 32) text.now) - 1) }
        ensures numbers { (i n : ℕ) → i < length result.numbers.items → n < 2 ^ 64
            → get_or (slice_split (λ byte. eqb byte 32) text.now) (i + 1) [] ≡ decimal n
            → get_or result.numbers.items i 0 ≡ n }
    {
        let mut words = text.split(|byte| *byte == b' ');
        let word = words.next().unwrap_or(&[]);
        let mut numbers = ArrayVec::new();
        for digits in words {
            let _ = numbers.try_push(number_of(digits));
        }
        Line { word, numbers }
    }

    // The i-th number, 0 past the last.
    pub fn get(&self, i: usize) -> u64
        ensures { result ≡ get_or self.now.numbers.items i 0 }
    {
        self.numbers.get(i).copied().unwrap_or(0)
    }

    // The same as a number of 32 bits.
    pub fn small(&self, i: usize) -> u32
        ensures { result ≡ get_or self.now.numbers.items i 0 % 4294967296 }
    {
        small(&self.numbers, i)
    }

    // The numbers from the i-th on.
    pub fn from(&self, i: usize) -> &[u64]
        ensures { result.now ≡ drop i self.now.numbers.items }
    {
        self.numbers.get(i..).unwrap_or(&[])
    }

    // The numbers from the i-th on as bytes, or nothing where there are not so many.
    pub fn bytes(&self, i: usize) -> Option<ArrayVec<u8, 64>>
        ensures none { is_none result ≡ ltb (length self.now.numbers.items) i }
        ensures bytes { IfSome result (λ bytes. bytes.items ≡ map (λ n. n % 256) (drop i self.now.numbers.items)) }
    {
        let numbers = self.numbers.get(i..)?;
        let mut bytes = ArrayVec::new();
        for number in numbers {
            let _ = bytes.try_push((*number % 256) as u8);
        }
        Some(bytes)
    }
}

// The number of these digits modulo 2 ^ 64. A byte below `0` ends it, and one past `9` counts as how far it is behind
// `0`, modulo 10.
fn number_of(digits: &[u8]) -> u64
    ensures { (n : ℕ) → n < 2 ^ 64 → digits.now ≡ decimal n → result ≡ n }
{
    let mut value: u64 = 0;
    for byte in digits {
        let Some(digit) = byte.checked_sub(b'0') else {
            break;
        };
        value = value.wrapping_mul(10).wrapping_add(u64::from(digit % 10));
    }
    value
}

// The i-th of these numbers modulo 2 ^ 32, 0 past the last.
pub fn small(numbers: &[u64], i: usize) -> u32
    ensures { result ≡ get_or numbers.now i 0 % 4294967296 }
{
    (numbers.get(i).copied().unwrap_or(0) % 4294967296) as u32
}

// The set of these tags.
pub fn set_of(tags: &[u64]) -> TagSet
    ensures { (t : ℕ) → has result t ≡ (ltb t 256 && list_any (λ tag. eqb t (tag % 4294967296)) tags.now) }
{
    let mut set = TagSet::empty();
    for tag in tags {
        set = set.union(TagSet::single((*tag % 4294967296) as u32));
    }
    set
}
