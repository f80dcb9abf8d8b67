// Tag sets in lent words, four words a set: a set read, a set written, and the own tags that starting writes.
// Every function answers for any number of words: out of range it reads the empty set, and writes nothing.
#![tactic(auto)]

ghost use Rattle.std.specs.Prelude.{◌≡◌, ◌/◌, min, length};
ghost use Rattle.tagset.specs.Set.{single_of};
ghost use Rattle.state.specs.State.{with_sets};
ghost use Rattle.tagstore.specs.Store.{load_of, store_of};

use tagset::TagSet;

// Set k, or the empty set where the words do not have it whole.
pub fn load_set(words: &[u64], k: usize) -> TagSet
    ensures { result ≡ load_of words.now k }
{
    words
        .as_chunks()
        .0
        .get(k)
        .map_or(TagSet::empty(), |words| TagSet { words: *words })
}

// Writes set k; changes nothing where the words do not have it whole.
pub fn store_set(words: &mut [u64], k: usize, s: TagSet)
    ensures { words.new ≡ store_of words.old k s }
{
    // One word after the other: copied as a slice, or in a loop, a set takes up to twice the time.
    if k < words.len() / 4 {
        let b = 4 * k;
        words[b] = s.words[0];
        words[b + 1] = s.words[1];
        words[b + 2] = s.words[2];
        words[b + 3] = s.words[3];
    }
}

// Gives each of the first n containers that the words have its own tag alone; past the 256th, no tag.
pub fn store_own_tags(words: &mut [u64], n: u32)
    ensures { words.new ≡ with_sets (min n (length words.old / 4)) single_of words.old }
{
    let sets = words.len() / 4;
    for c in 0..sets.min(n as usize) {
        store_set(words, c, TagSet::single(c as u32));
    }
}
