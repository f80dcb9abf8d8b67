// Tags carried along the enabled flows (document 01: the spread), pass by pass, up to the first pass that adds none.
#![tactic(auto)]

ghost use Rattle.std.specs.Prelude.{◌≡◌, ℕ, ◌*◌, ◌≤◌, ◌<◌, ◌++◌, length, take, drop};
ghost use Rattle.state.specs.State.{set_at};
ghost use Rattle.state.specs.Layout.{Fit64};
ghost use Rattle.model.specs.Model.{edges, edges_of};
ghost use Rattle.propagation.specs.Found.{Found};
ghost use Rattle.propagation.specs.Listed.{Listed, WithRoom};
ghost use Rattle.propagation.specs.Pass.{carried, new_tags, carried_all, new_in_all, passed, new_in_passes, passes_of, pass_count, sets_after, pairs_added};

use model::Flow;

// The (tag, container) pairs that propagation added, and how many passes it made, the last included.
#[derive(Clone, Copy)]
pub struct Propagated {
    pub gain: u32,
    pub passes: u32,
}

// Carries the tags of the first `containers` sets along the flows. It answers for any numbers and words: sets that the
// words do not have, and those past the 256th, are left out, and so is a flow with such an end.
pub fn propagate(tags: &mut [u64], containers: u32, flows: &[Flow]) -> Propagated
    ensures sets { tags.new ≡ sets_after containers flows.now tags.old }
    ensures passes { result.passes ≡ pass_count containers flows.now tags.old }
    ensures gain { result.gain ≡ pairs_added containers flows.now tags.old }
{
    let sets = (tags.len() / 4).min(256) as u32;
    let n = containers.min(sets);
    Sets { words: tags, n }.make_passes(flows)
}

// The sets of the first n containers, at most 256, which their words have.
#[derive(Drop)]
struct Sets<'a> {
    words: &'a mut [u64],
    n: u32,
    ghost most: { n ≤ 256 },
    ghost inside: { 4 * n ≤ length words.now },
    // of words in a field, the proof does not know by itself that they have 64 bits
    ghost fit: { Fit64 words.now },
}

impl Sets<'_> {
    // Passes over the flows, up to the first that adds nothing. Within a pass each flow reads the sets as the pass
    // found them: a copy, in which the sets that a pass changed are copied again after it.
    fn make_passes(&mut self, flows: &[Flow]) -> Propagated
        ensures same { self.new.words.ghost_name ≡ self.old.words.ghost_name }
        ensures passes { result.passes ≡ passes_of self.old.n (edges_of flows.now) self.old.words.now }
        ensures sets { self.new.words.now ≡ passed result.passes self.old.n (edges_of flows.now) self.old.words.now }
        ensures gain { result.gain ≡ new_in_passes result.passes self.old.n (edges_of flows.now) self.old.words.now }
    {
        // There is no heap, by the project's rule, so room is fixed: for 256 sets.
        let mut found = [0u64; 1024];
        self.copy_sets(&mut found);
        // The containers whose sets a pass changed, while there is room.
        let mut list = [0u32; 64];
        let mut gain: u32 = 0;
        let mut passes: u32 = 0;
        // How many passes there are is known after the last, so there is no range to go over.
        'passes: loop {
            let mut added: u32 = 0;
            let mut count: usize = 0;
            for flow in flows {
                let new = self.carry_flow(&found, *flow);
                if new != 0 {
                    added += new;
                    count = list_one(&mut list, count, flow.to);
                }
            }
            passes += 1;
            gain += added;
            if added == 0 {
                break 'passes;
            }
            self.copy_changed(&mut found, &list[..count]);
        }
        Propagated { gain, passes }
    }

    // Carries along the edges of one flow: one, from its source to its destination. It stands by itself, as `edges`
    // does, since a flow that carries both ways (document 02, request 5) has two. Answers how many tags are new.
    fn carry_flow(&mut self, found: &[u64; 1024], f: Flow) -> u32
        ensures same { (self.new.n ≡ self.old.n) × (self.new.words.ghost_name ≡ self.old.words.ghost_name) }
        ensures sets { self.new.words.now ≡ carried_all self.old.n found.now (edges f) self.old.words.now }
        ensures gain { result ≡ new_in_all self.old.n found.now (edges f) self.old.words.now }
        ensures none { result ≡ 0 → self.new.words.now ≡ self.old.words.now }
    {
        self.carry(found, f.from, f.to)
    }

    // Carries along one edge: container b gets the tags that container a had when the pass began. Answers how many are
    // new to b.
    fn carry(&mut self, found: &[u64; 1024], a: u32, b: u32) -> u32
        ensures same { (self.new.n ≡ self.old.n) × (self.new.words.ghost_name ≡ self.old.words.ghost_name) }
        ensures sets { self.new.words.now ≡ carried self.old.n found.now (a, b) self.old.words.now }
        ensures gain { result ≡ new_tags self.old.n found.now (a, b) self.old.words.now }
        ensures none { result ≡ 0 → self.new.words.now ≡ self.old.words.now }
    {
        if self.n <= a.max(b) {
            return 0;
        }
        let i = b as usize;
        // One borrow for both calls: of words lent from the field, the proof knows the length alone.
        let words = &mut *self.words;
        let old = tagstore::load_set(words, i);
        let source = tagstore::load_set(found, a as usize);
        let new = old.union(source);
        if new == old {
            return 0;
        }
        tagstore::store_set(words, i, new);
        new.size() - old.size()
    }

    // Copies the sets that a pass changed: all, where they are no more than four times as many as are listed, and else
    // those that are listed. So its cost grows with the flows that added tags, and not with the containers.
    fn copy_changed(&self, found: &mut [u64; 1024], list: &[u32])
        ensures { Found self.now.n (WithRoom (length list.now) list.now) found.old self.now.words.now
            → (a : ℕ) → a < self.now.n → set_at found.new a ≡ set_at self.now.words.now a }
    {
        if self.n as usize <= 4 * list.len() {
            self.copy_sets(found);
        } else {
            self.copy_listed(found, list);
        }
    }

    // Copies the sets of the containers that are listed.
    fn copy_listed(&self, found: &mut [u64; 1024], list: &[u32])
        ensures { Found self.now.n (Listed list.now 0 (length list.now)) found.old self.now.words.now
            → (a : ℕ) → a < self.now.n → set_at found.new a ≡ set_at self.now.words.now a }
    {
        for container in list {
            let k = *container as usize;
            tagstore::store_set(found, k, tagstore::load_set(self.words, k));
        }
    }

    // Copies all the sets.
    fn copy_sets(&self, found: &mut [u64; 1024])
        ensures { found.new ≡ take (4 * self.now.n) self.now.words.now ++ drop (4 * self.now.n) found.old }
    {
        let end = 4 * (self.n as usize);
        found[..end].copy_from_slice(&self.words[..end]);
    }
}

// Lists one container more, while there is room. Answers how many are listed. A full list may lack some; it has a
// quarter of 256 places, so that all sets are copied then.
fn list_one(list: &mut [u32; 64], count: usize, container: u32) -> usize
    requires { count ≤ 64 }
    ensures room { result ≤ 64 }
    ensures this { WithRoom result list.new container }
    ensures others { (a : ℕ) → WithRoom count list.old a → WithRoom result list.new a }
{
    if 64 <= count {
        return count;
    }
    list[count] = container;
    count + 1
}
