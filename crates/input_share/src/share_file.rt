// A miner's share file.
ghost use Rattle.std.specs.Prelude.{◌≡◌, length};

use crate::entry::ShareEntry;
use proto_core::Number;
use std::marker::Model;

/// One miner's share file: the inputs in the order of their file, the lengths of the tapes of the dealer and of miners 1, 2
/// and 3, and the miner whose file it is.
pub struct ShareFile {
    entries: Vec<ShareEntry>,
    lens: [u64; 4],
    miner: Number,
}

// Written out, so that an early exit calls this once.
impl Drop for ShareFile {
    fn drop(self) {
        let ShareFile {
            entries: _,
            lens: _,
            miner: _,
        } = self;
    }
}

impl Model for ShareFile {
    ghost use Rattle.std.specs.Prelude.{◌≡◌, length};
    ghost use Rattle.input_share.specs.ShareFile.{MinerFile};

    ghost Value = { MinerFile };

    ghost view = { λ file. record {
      entries = file.entries.items;
      lens = file.lens;
      miner = file.miner;
    } };

    ghost invariant = { λ file. length file.lens ≡ 4 };
}

impl ShareFile {
    /// The file of these entries.
    pub fn new(entries: Vec<ShareEntry>, lens: [u64; 4], miner: Number) -> Self
        ensures { result ≡ record { entries = entries.items; lens = lens; miner = miner } }
    {
        ShareFile {
            entries,
            lens,
            miner,
        }
    }

    /// The entries, in order.
    pub fn entries(&self) -> &[ShareEntry]
        ensures { result.now ≡ self.now.entries }
    {
        &self.entries
    }

    /// The lengths of the tapes of the dealer and of miners 1, 2 and 3.
    pub fn lens(&self) -> [u64; 4]
        ensures lens { result ≡ self.now.lens }
        ensures four { length self.now.lens ≡ 4 }
    {
        self.lens
    }

    /// The miner whose file it is.
    pub fn miner(&self) -> Number
        ensures { result ≡ self.now.miner }
    {
        self.miner
    }
}
