// Where two texts differ.
ghost use Rattle.std.specs.Prelude.{◌≡◌};
ghost use Rattle.trio.specs.Joining.{Difference as ADifference};

use std::marker::Model;

/// The first line that differs in the texts of two miners: its number, from 1, and the lines, each with its newline. A line that isn't
/// there is empty.
#[derive(Drop)]
pub struct Difference {
    line: u64,
    first: Vec<u8>,
    second: Vec<u8>,
}

impl Model for Difference {
    ghost Value = { ADifference };

    ghost view = { λ d. record { line = d.line; first = d.first.items; second = d.second.items } };
}

impl Difference {
    /// These two lines of this number.
    pub fn new(line: u64, first: Vec<u8>, second: Vec<u8>) -> Difference
        ensures { result ≡ record { line = line; first = first.items; second = second.items } }
    {
        Difference {
            line,
            first,
            second,
        }
    }

    /// The number of the line, from 1.
    pub fn line(&self) -> u64
        ensures { result ≡ self.now.line }
    {
        self.line
    }

    /// The line of the first miner.
    pub fn first(&self) -> &[u8]
        ensures { result.now ≡ self.now.first }
    {
        &self.first
    }

    /// The line of the other one.
    pub fn second(&self) -> &[u8]
        ensures { result.now ≡ self.now.second }
    {
        &self.second
    }
}
