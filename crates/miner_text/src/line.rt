// A line of a miner's text.
ghost use Rattle.std.specs.Prelude.{Some};
ghost use Rattle.miner_text.specs.Lines.{line_text};

use crate::result_share::ResultShare;
use sc_text::{End, Event};
use std::fmt;

/// A line of the text that a miner writes of its run.
pub enum MinerLine {
    /// What was opened, or a public value that was published: a line of the run's text.
    Told(Event),
    /// The miner's share of a value that is published to the client.
    Share(ResultShare),
    /// How the run ended: the last line.
    Ended(End),
}

// Written out, so that an early exit calls this once.
impl Drop for MinerLine {
    fn drop(self) {
        match self {
            MinerLine::Told(_) | MinerLine::Share(_) | MinerLine::Ended(_) => {}
        }
    }
}

/// Writes the line, with its newline.
impl fmt::Display for MinerLine {
    ghost output = { λ line. Some (line_text line) };

    #[tactic(auto, unfolding(crate::specs::Lines::line_text))]
    fn fmt<W: fmt::Write>(&self, f: &mut fmt::Formatter<W>) -> fmt::Result {
        match self {
            MinerLine::Told(event) => write!(f, "{event}"),
            MinerLine::Share(share) => write!(f, "{share}"),
            MinerLine::Ended(end) => write!(f, "{end}"),
        }
    }
}
