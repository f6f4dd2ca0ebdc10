// What splitting makes of words, place by place.
ghost use Rattle.std.specs.Prelude.{◌≡◌, length, IfOk};
ghost use Rattle.proto_core.specs.Rings.{add_ring, xor_ring};
ghost use Rattle.proto_core.specs.Elementwise.{minus, zeros};
ghost use Rattle.split_share.specs.SplitStrand.{signed_sum};

use crate::split::with_sign;
use proto_core::{AddRing, ShareRing};
use std::alloc::{AllocError, Global};

/// Takes the words of `y` away from those of `x`.
pub(crate) fn take_words(x: &mut [u64], y: &[u64])
    requires { length y.now ≡ length x.old }
    ensures { x.new ≡ minus add_ring (length x.old) x.old y.now }
{
    for at in 0..x.len() {
        x[at] = AddRing::sub(x[at], y[at]);
    }
}

/// Makes each word its sum with the one of `got`, or the negative of that.
pub(crate) fn add_signed(x: &mut [u64], got: &[u64], negated: bool)
    requires { length got.now ≡ length x.old }
    ensures { x.new ≡ signed_sum negated (length x.old) x.old got.now }
{
    for at in 0..x.len() {
        x[at] = with_sign(negated, AddRing::add(x[at], got[at]));
    }
}

/// `n` times the word 0.
#[tactic(auto, using(crate::proofs::Zeros::zero_steps))]
pub(crate) fn zero_words(alloc: Global, n: usize) -> Result<Vec<u64>, AllocError>
    ensures { IfOk result (λ words. words.items ≡ zeros xor_ring n) }
{
    Ok(vec![in alloc; 0; n]?)
}
