// What a run of a program gives.
use gates::Gate;
use sc_text::{End, Event};

/// How many words of each tape a run used: the dealer's, and the three miners'.
#[derive(Clone, Copy)]
pub struct Needs {
    pub dealer: u64,
    pub first: u64,
    pub second: u64,
    pub third: u64,
}

/// What a run gave: how it ended and at which cost, the words that it used of the tapes, what it told, the opened words one after
/// another, and its gates.
pub struct Report {
    pub end: End,
    pub needs: Needs,
    pub events: Vec<Event>,
    pub opened: Vec<u64>,
    pub gates: Vec<Gate>,
}

// Written out, so that an early exit calls this once.
impl Drop for Report {
    fn drop(self) {
        let Report {
            end: _,
            needs: _,
            events: _,
            opened: _,
            gates: _,
        } = self;
    }
}
