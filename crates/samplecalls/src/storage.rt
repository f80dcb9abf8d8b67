// What the script's lines work on: a header, and the part of each list that is lent.
ghost use Rattle.std.specs.Prelude.{◌≡◌, ◌+◌, ◌&&◌, get_or, leb, take};
ghost use Rattle.state.specs.State.{state_in, storage_of};

use model::Flow;
use sampleline::Line;
use state::{Header, Tracker};

// How much of each list is lent to the calls: words of tags, words of policy sets, counts and records of the flow
// table.
#[derive(Clone, Copy)]
pub struct Room {
    pub tags: usize,
    pub policies: usize,
    pub counts: usize,
    pub flows: usize,
}

impl Room {
    // All that there is.
    pub const MOST: Room = Room {
        tags: 1028,
        policies: 4112,
        counts: 257,
        flows: 600,
    };

    // All that there is, but of the flow table 512 records.
    pub const ALL: Room = Room {
        flows: 512,
        ..Room::MOST
    };

    // What the first four numbers of a line say.
    pub fn of(line: &Line) -> Room
        ensures tags { result.tags ≡ get_or line.now.numbers.items 0 0 }
        ensures policies { result.policies ≡ get_or line.now.numbers.items 1 0 }
        ensures counts { result.counts ≡ get_or line.now.numbers.items 2 0 }
        ensures flows { result.flows ≡ get_or line.now.numbers.items 3 0 }
    {
        Room {
            tags: line.get(0) as usize,
            policies: line.get(1) as usize,
            counts: line.get(2) as usize,
            flows: line.get(3) as usize,
        }
    }

    // Whether there is so much of each list.
    pub fn is_there(self) -> bool
        ensures { result ≡ (leb self.tags 1028 && leb self.policies 4112 && leb self.counts 257 && leb self.flows 600) }
    {
        let most = Room::MOST;
        self.tags <= most.tags
            && self.policies <= most.policies
            && self.counts <= most.counts
            && self.flows <= most.flows
    }
}

// The script's tracker: its header, and what is lent of the lists. A list that a call only reads is handed to it as
// `&mut *storage.tags`: `storage.tags` is then a read of the storage while another list of it is lent, for which the
// borrow checker has no rule. Nor has it one for a method that answers a part of it: who lends one spells it out.
#[derive(Drop)]
pub struct Storage<'a> {
    pub header: &'a mut Header,
    pub tags: &'a mut [u64],
    pub policies: &'a mut [u64],
    pub counts: &'a mut [u8],
    pub flows: &'a mut [Flow],
}

impl Storage<'_> {
    // What a question is asked of.
    pub fn seen(&self) -> Tracker<'_>
        ensures header { (state_in result).header ≡ self.now.header.now }
        ensures storage { (state_in result).storage
            ≡ storage_of self.now.tags.now self.now.policies.now self.now.counts.now self.now.flows.now }
    {
        Tracker {
            header: *self.header,
            tags: self.tags,
            policies: self.policies,
            counts: self.counts,
            flows: self.flows,
        }
    }
}

// The first n of a list, or all.
pub fn front<T>(list: &mut [T], n: usize) -> &mut [T]
    ensures { result.now ≡ take n list.old }
{
    let end = n.min(list.len());
    &mut list[..end]
}
