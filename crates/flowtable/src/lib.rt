// The table of enabled flows, in place: find, put, remove. Every function answers for any length, place and content.
#![tactic(auto)]

ghost use Rattle.std.specs.Prelude.{◌≡◌, length, set};
ghost use Rattle.flowtable.specs.FlowTable.{found_in, removed_at};

use model::Flow;

// The place of the first flow of this number, if there is one.
pub fn find(flows: &[Flow], number: u32) -> Option<usize>
    ensures { result ≡ found_in number flows.now }
{
    flows.iter().position(|flow| flow.number == number)
}

// Puts the value in this place; changes nothing where there is none.
pub fn put<T: Copy>(list: &mut [T], place: usize, value: T)
    ensures { list.new ≡ set list.old place value }
{
    // No get_mut and no split_at_mut_checked: of the list after either the proof knows the length alone.
    if place < list.len() {
        list[place] = value;
    }
}

// Takes the record in this place out of the records in use: the later ones move down by one, and the last becomes zero.
// Changes nothing where they have no such place.
pub fn remove(flows: &mut [Flow], place: usize)
    ensures { flows.new ≡ removed_at place (length flows.old) flows.old }
{
    if flows.len() <= place {
        return;
    }
    let last = flows.len() - 1;
    flows.copy_within(place + 1.., place);
    flows[last] = Flow::NONE;
}
