// The tapes of one run.
ghost use Rattle.std.specs.Prelude.{◌≡◌};
ghost use Rattle.tape_file.specs.Tapes.{lengths_of};

use std::marker::Model;

/// The tapes of the dealer and of miners 1, 2 and 3: the words that each draws in a run, in order.
#[derive(Drop)]
pub struct Tapes {
    dealer: Vec<u64>,
    miner1: Vec<u64>,
    miner2: Vec<u64>,
    miner3: Vec<u64>,
}

impl Model for Tapes {
    ghost use Rattle.tape_file.specs.Tapes.{FourTapes};

    ghost Value = { FourTapes };

    ghost view = { λ tapes. record {
      dealer = tapes.dealer.items;
      one = tapes.miner1.items;
      two = tapes.miner2.items;
      three = tapes.miner3.items;
    } };
}

impl Tapes {
    /// Tapes of these words.
    pub fn new(dealer: Vec<u64>, miner1: Vec<u64>, miner2: Vec<u64>, miner3: Vec<u64>) -> Self
        ensures { result ≡ record {
          dealer = dealer.items;
          one = miner1.items;
          two = miner2.items;
          three = miner3.items;
        } }
    {
        Tapes {
            dealer,
            miner1,
            miner2,
            miner3,
        }
    }

    /// The words of the dealer's tape.
    pub fn dealer(&self) -> &[u64]
        ensures { result.now ≡ self.now.dealer }
    {
        &self.dealer
    }

    /// The words of miner 1's tape.
    pub fn miner1(&self) -> &[u64]
        ensures { result.now ≡ self.now.one }
    {
        &self.miner1
    }

    /// The words of miner 2's tape.
    pub fn miner2(&self) -> &[u64]
        ensures { result.now ≡ self.now.two }
    {
        &self.miner2
    }

    /// The words of miner 3's tape.
    pub fn miner3(&self) -> &[u64]
        ensures { result.now ≡ self.now.three }
    {
        &self.miner3
    }

    /// The lengths of the tapes of the dealer and of miners 1, 2 and 3.
    pub fn lengths(&self) -> [u64; 4]
        ensures { result ≡ lengths_of self.now }
    {
        [
            self.dealer.len() as u64,
            self.miner1.len() as u64,
            self.miner2.len() as u64,
            self.miner3.len() as u64,
        ]
    }
}
