// What the client saw of a run.
use sc_text::{Elements, End, Name};
use std::marker::Model;

/// A share of one value by each miner.
#[derive(Drop)]
pub struct Given {
    pub first: Vec<u64>,
    pub second: Vec<u64>,
    pub third: Vec<u64>,
}

impl Model for Given {
    ghost use Rattle.client_model.specs.Given.{Given as AGiven};

    ghost Value = { AGiven };

    ghost view = { λ g. record { first = g.first.items; second = g.second.items; third = g.third.items } };
}

/// What the client is told at one place of a run.
pub enum Sighting {
    /// A private value was opened.
    Opened(Elements),
    /// A public value was published under a name.
    Said(Name, Elements),
    /// A private value was handed over under a name: a share of it by each miner, and its elements.
    Got(Name, Given, Elements),
}

// Written out, so that an early exit calls this once.
impl Drop for Sighting {
    fn drop(self) {
        match self {
            Sighting::Opened(_) | Sighting::Said(_, _) | Sighting::Got(_, _, _) => {}
        }
    }
}

/// What the client was told, in order, and how the run ended.
#[derive(Drop)]
pub struct ClientView {
    pub sightings: Vec<Sighting>,
    pub end: End,
}

impl Model for ClientView {
    ghost use Rattle.client_text.specs.Seen.{ClientView as AClientView};

    ghost Value = { AClientView };

    ghost view = { λ v. record { sightings = v.sightings.items; end = v.end } };
}
