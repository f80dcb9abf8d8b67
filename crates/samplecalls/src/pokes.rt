// What is written past the calls: headers of the script's own, and a single step of an execution.
ghost use Rattle.std.specs.Prelude.{◌≡◌, ◌%◌, get_or};
ghost use Rattle.tagset.specs.Set.{union_of};
ghost use Rattle.tagstore.specs.Store.{load_of, store_of};

use sampleline::Line;
use state::Header;

// `header N C G`: the header.
pub fn header(line: &Line) -> Header
    ensures containers { result.containers ≡ get_or line.now.numbers.items 0 0 % 4294967296 }
    ensures count { result.count ≡ get_or line.now.numbers.items 1 0 % 4294967296 }
    ensures greatest { result.greatest ≡ get_or line.now.numbers.items 2 0 % 4294967296 }
{
    Header {
        containers: line.small(0),
        count: line.small(1),
        greatest: line.small(2),
    }
}

// `exec F T`: the set of T gets the tags of F, and nothing else changes (document 000: an execution of a flow).
pub fn exec(line: &Line, tags: &mut [u64])
    ensures { tags.new ≡ store_of tags.old (get_or line.now.numbers.items 1 0 % 4294967296) (union_of
        (load_of tags.old (get_or line.now.numbers.items 1 0 % 4294967296))
        (load_of tags.old (get_or line.now.numbers.items 0 0 % 4294967296))) }
{
    let to = line.small(1) as usize;
    let set = tagstore::load_set(tags, to).union(tagstore::load_set(tags, line.small(0) as usize));
    tagstore::store_set(tags, to, set);
}
