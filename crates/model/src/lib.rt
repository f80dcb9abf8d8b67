// A flow of data from one container to another. What is true of containers, flows and executions stands in specs/.
#![tactic(auto)]

#[repr(C)]
#[derive(Clone, Copy, Debug, PartialEq, Eq)]
pub struct Flow {
    pub number: u32,
    pub from: u32,
    pub to: u32,
}

impl Flow {
    // No flow: the record of a place that is not in use.
    pub const NONE: Flow = Flow {
        number: 0,
        from: 0,
        to: 0,
    };
}
