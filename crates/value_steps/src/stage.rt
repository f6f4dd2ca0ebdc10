// How far a run has come.
use gates::Gate;
use sc_text::Event;
use std::alloc::Global;

/// How many words were drawn of each miner's tape.
#[derive(Clone, Copy)]
pub struct Drawn {
    pub first: u64,
    pub second: u64,
    pub third: u64,
}

/// How far a run has come.
#[derive(Drop)]
pub struct Stage<'a> {
    /// What is left of the budget.
    pub left: u64,
    pub drawn: Drawn,
    /// How many values the gates have made.
    pub made: u64,
    pub gates: Vec<Gate>,
    pub events: Vec<Event>,
    /// The opened words, one after another.
    pub opened: Vec<u64>,
    /// The answers that are not yet taken.
    pub answers: &'a [u64],
}

impl<'a> Stage<'a> {
    ghost use Rattle.std.specs.Prelude.{◌≡◌};
    ghost use Rattle.language_model.specs.Reports.{beginning};
    ghost use Rattle.value_steps.specs.Views.{stage_seen};

    /// The stage where a run begins, with all of its budget, and with these answers.
    pub fn new(alloc: Global, budget: u64, answers: &'a [u64]) -> Stage<'a>
        ensures { stage_seen result ≡ beginning budget answers.now }
    {
        Stage {
            left: budget,
            drawn: Drawn {
                first: 0,
                second: 0,
                third: 0,
            },
            made: 0,
            gates: Vec::new(alloc),
            events: Vec::new(alloc),
            opened: Vec::new(alloc),
            answers,
        }
    }
}
