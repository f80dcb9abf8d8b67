// The tracker's small numbers, and a tracker as a question finds it. What its lent storage holds, and when a state is
// valid, stands in specs/.
#![tactic(auto)]

use model::Flow;

// What a caller keeps of a tracker from call to call, beside the storage that it lends: the number of containers, how
// many flows are enabled, and the greatest number that a flow had. A record of C, so `count` is here and not with the
// table, which is a slice of the caller's.
#[repr(C)]
#[derive(Clone, Copy, Debug, PartialEq, Eq)]
pub struct Header {
    pub containers: u32,
    pub count: u32,
    pub greatest: u32,
}

impl Header {
    // The header of no tracker: what a refused start answers for C, and a replay that did not begin.
    pub const NONE: Header = Header {
        containers: 0,
        count: 0,
        greatest: 0,
    };
}

// A tracker that is asked and not changed: its header and the four lent lists, each of any length and content. What is
// kept of a container lies in three lists beside each other, and not in a list of records, since C lends them apart.
#[derive(Clone, Copy)]
pub struct Tracker<'a> {
    pub header: Header,
    pub tags: &'a [u64],
    pub policies: &'a [u64],
    pub counts: &'a [u8],
    pub flows: &'a [Flow],
}
