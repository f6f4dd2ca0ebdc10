ghost use Rattle.std.specs.Prelude.{◌≡◌, ◌*◌, ◌≤◌, length, IfOk};
ghost use Rattle.multiply.specs.MulStrand.{masked, crossed, product};

use crate::kernels::{add_crossed, add_part, take_part};
use lane_kernel::LaneRing;
use std::alloc::{AllocError, Global};
use std::marker::Model;

/// One party's part in multiplying two blocks, as far as it has come: what [`Mul`](crate::Mul) is, its words in vectors.
///
/// It holds the party's shares of the factors as far as they are masked, and what masks its share of the product. A step
/// takes a message of the right length where it lies. What a miner sends is the words drawn, and then both factors.
#[derive(Drop)]
pub struct MulWords {
    u: Vec<u64>,
    v: Vec<u64>,
    mask: Vec<u64>,
}

impl Model for MulWords {
    ghost use Rattle.std.specs.Prelude.{◌≡◌, ◌≤◌, length};
    ghost use Rattle.multiply.specs.MulStrand.{Held};

    ghost Value = { Held };

    ghost view = { λ m. record { u = m.u.items; v = m.v.items; mask = m.mask.items } };

    ghost invariant = { λ m. (length m.mask.items ≤ 512) × (length m.u.items ≡ length m.mask.items) × (length m.v.items ≡ length m.mask.items) };
}

impl MulWords {
    /// Begins to multiply `u` and `v` with drawn words: for n elements n that mask `u`, n that mask `v`, n that mask the
    /// product.
    pub fn masked<R: LaneRing>(
        alloc: Global,
        u: &[u64],
        v: &[u64],
        words: &[u64],
    ) -> Result<MulWords, AllocError>
        requires short { length u.now ≤ 512 }
        requires second { length v.now ≡ length u.now }
        requires drawn { length words.now ≡ 3 * length u.now }
        ensures { IfOk result (λ m. m ≡ masked R.ring (length u.now) u.now v.now words.now) }
    {
        let n = u.len();
        let mut masked_u = Vec::from_slice(alloc, u)?;
        let mut masked_v = Vec::from_slice(alloc, v)?;
        let mask = Vec::from_slice(alloc, &words[2 * n..3 * n])?;
        add_part::<R>(&mut masked_u, words, 0);
        add_part::<R>(&mut masked_v, words, 1);
        Ok(MulWords {
            u: masked_u,
            v: masked_v,
            mask,
        })
    }

    /// How many elements are multiplied.
    pub fn size(&self) -> usize
        ensures size { result ≡ length self.now.mask }
        ensures bound { result ≤ 512 }
    {
        self.mask.len()
    }

    /// Both factors, as far as they are masked.
    pub fn factors(&self) -> (&[u64], &[u64])
        ensures u { result.0.now ≡ self.now.u }
        ensures v { result.1.now ≡ self.now.v }
        ensures u_size { length self.now.u ≡ length self.now.mask }
        ensures v_size { length self.now.v ≡ length self.now.mask }
        ensures bound { length self.now.mask ≤ 512 }
    {
        (&self.u, &self.v)
    }

    /// Takes the previous miner's 3n masks.
    pub fn cross<R: LaneRing>(&mut self, got: &[u64])
        requires { length got.now ≡ 3 * length self.old.mask }
        ensures { self.new ≡ crossed R.ring (length self.old.mask) self.old got.now }
    {
        take_part::<R>(&mut self.u, got, 0);
        take_part::<R>(&mut self.v, got, 1);
        take_part::<R>(&mut self.mask, got, 2);
    }

    /// Takes the previous miner's two masked factors, and answers the party's share of the product.
    pub fn into_product<R: LaneRing>(mut self, got: &[u64]) -> Vec<u64>
        requires { length got.now ≡ 2 * length self.mask }
        ensures { result.items ≡ product R.ring (length self.mask) self got.now }
    {
        add_crossed::<R>(&mut self.mask, &self.u, &self.v, got);
        self.mask
    }
}
