// Sets of tags below 256, by value: tag t is bit t % 64 of word t / 64.
#![tactic(auto)]

ghost use Rattle.std.specs.Prelude.{◌≡◌, ◌-◌, ◌<◌, ℕ, get_or};
ghost use Rattle.tagset.specs.Set.{has, empty_set, single_of, low_ones, below_of};
ghost use Rattle.tagset.specs.Set.{union_of, intersection_of, subset_of, same_of, exceeds_of, size_of};

// Two sets are equal where they have the same tags (proofs/Equal.antt).
#[repr(C)]
#[derive(Clone, Copy, Debug, PartialEq, Eq)]
pub struct TagSet {
    pub words: [u64; 4],
}

impl TagSet {
    // The set with no tag.
    pub fn empty() -> TagSet
        ensures { result ≡ empty_set }
    {
        TagSet { words: [0; 4] }
    }

    // The set of one tag, or of none where the tag is 256 or more. (No `get_mut`: of the words after it the proof knows
    // their number alone.)
    pub fn single(tag: u32) -> TagSet
        ensures { result ≡ single_of tag }
    {
        let mut words = [0; 4];
        if tag < 256 {
            words[(tag / 64) as usize] = 1 << (tag % 64);
        }
        TagSet { words }
    }

    // The tags below n.
    pub fn below(n: u32) -> TagSet
        ensures { result ≡ below_of n }
    {
        TagSet {
            words: [0, 64, 128, 192].map(|first| low_ones(n, first)),
        }
    }

    // Whether the tag is in the set.
    pub fn contains(self, tag: u32) -> bool
        ensures { result ≡ has self tag }
    {
        self.words
            .get((tag / 64) as usize)
            .is_some_and(|word| (word >> (tag % 64)) & 1 == 1)
    }

    // The tags of both sets together.
    pub fn union(self, other: TagSet) -> TagSet
        ensures { result ≡ union_of self other }
    {
        self.each(other, |a, b| a | b)
    }

    // The part of this set that lies in the other.
    pub fn intersection(self, other: TagSet) -> TagSet
        ensures { result ≡ intersection_of self other }
    {
        self.each(other, |a, b| a & b)
    }

    // Whether every tag of this set is in the other: whether nothing is left of its words without those of the other.
    // The four words are tested as one: tested one by one, or as a set, they take half as long again where most pass.
    pub fn is_subset(self, other: TagSet) -> bool
        ensures { result ≡ subset_of self other }
    {
        let [a, b, c, d] = self.each(other, |a, b| a & !b).words;
        a | b | c | d == 0
    }

    // Whether both sets have the same tags: `==`, which says so of words.
    pub fn equals(self, other: TagSet) -> bool
        ensures { result ≡ same_of self other }
    {
        self == other
    }

    // Whether some tag of the set is n or more.
    pub fn exceeds(self, n: u32) -> bool
        ensures { result ≡ exceeds_of self n }
    {
        !self.is_subset(TagSet::below(n))
    }

    // How many tags the set has.
    pub fn size(self) -> u32
        ensures { result ≡ size_of self }
    {
        self.words.iter().map(|word| word.count_ones()).sum()
    }

    // The set that the function makes of the words of both, each with the one in its place.
    fn each<F: Fn(u64, u64) -> u64 + Drop>(self, other: TagSet, f: F) -> TagSet
        requires { F.IsAlwaysCallable f }
        ensures { (i : ℕ) → i < 4
            → F.post f (get_or self.words i 0) (get_or other.words i 0) (get_or result.words i 0) }
    {
        TagSet {
            words: std::array::from_fn(|i| f(self.words[i], other.words[i])),
        }
    }
}

// The word at tag `first` of the tags below n: as many low ones as tags from `first` on are below n, at most 64.
fn low_ones(n: u32, first: u32) -> u64
    ensures { result ≡ low_ones (n - first) }
{
    if n <= first {
        return 0;
    }
    let k = n - first;
    if 64 <= k {
        return u64::MAX;
    }
    (1 << k) - 1
}
