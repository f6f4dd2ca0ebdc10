ghost use Rattle.std.specs.Prelude.{◌≡◌, ◌≤◌, length, IfOk};
ghost use Rattle.proto_core.specs.Resharing.{reshared, sum_of_three};

use crate::kernels::{add_masks, add_two};
use proto_core::ShareRing;
use std::alloc::{AllocError, Global};
use std::marker::Model;

/// One party's part in sharing a block anew or opening it, its words in vectors.
///
/// It holds the party's share, and beside it as many words: the party's mask, or what another party sent. A step takes a
/// message of the right length where it lies.
#[derive(Drop)]
pub struct ShareWords {
    share: Vec<u64>,
    other: Vec<u64>,
}

impl Model for ShareWords {
    ghost use Rattle.std.specs.Prelude.{◌≡◌, ◌≤◌, ℕ, List, length};

    ghost Value = { List ℕ × List ℕ };

    ghost view = { λ s. (s.share.items, s.other.items) };

    ghost invariant = { λ s. (length s.share.items ≤ 512) × (length s.other.items ≡ length s.share.items) };
}

impl ShareWords {
    /// A share and as many drawn words that mask it.
    pub fn new(alloc: Global, share: &[u64], mask: &[u64]) -> Result<ShareWords, AllocError>
        requires short { length share.now ≤ 512 }
        requires drawn { length mask.now ≡ length share.now }
        ensures { IfOk result (λ s. s ≡ (share.now, mask.now)) }
    {
        Ok(ShareWords {
            share: Vec::from_slice(alloc, share)?,
            other: Vec::from_slice(alloc, mask)?,
        })
    }

    /// How many words each message has.
    pub fn size(&self) -> usize
        ensures size { result ≡ length self.now.0 }
        ensures bound { result ≤ 512 }
    {
        self.share.len()
    }

    /// The share.
    pub fn share(&self) -> &[u64]
        ensures share { result.now ≡ self.now.0 }
        ensures bound { length self.now.0 ≤ 512 }
    {
        &self.share
    }

    /// Takes the previous party's mask: the share is masked anew.
    pub fn take_mask<R: ShareRing>(&mut self, got: &[u64])
        requires { length got.now ≡ length self.old.0 }
        ensures { self.new ≡ (reshared R.ring (length self.old.0) self.old.0 self.old.1 got.now, self.old.1) }
    {
        add_masks::<R>(&mut self.share, &self.other, got);
    }

    /// Keeps what another party sent in the place of the mask.
    pub fn keep(&mut self, got: &[u64])
        requires { length got.now ≡ length self.old.0 }
        ensures { self.new ≡ (self.old.0, got.now) }
    {
        self.other.copy_from_slice(got);
    }

    /// Takes the third party's share, and answers the sum of all three.
    pub fn into_sum<R: ShareRing>(mut self, got: &[u64]) -> Vec<u64>
        requires { length got.now ≡ length self.0 }
        ensures { result.items ≡ sum_of_three R.ring (length self.0) self.0 self.1 got.now }
    {
        add_two::<R>(&mut self.share, &self.other, got);
        self.share
    }
}
