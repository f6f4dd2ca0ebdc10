// Lowest bits of words, element by element.
ghost use Rattle.std.specs.Prelude.{◌≡◌, length};
ghost use Rattle.share_convert.specs.Converting.{flipped};

use proto_core::{Block, XorRing};

/// Each word with its lowest bit turned where the other word has one.
#[tactic(auto, using(proto_core::proofs::Each::each_steps), unfolding(share_convert::specs::Converting::flipped))]
pub(crate) fn flipped_bits<P>(x: &Block<XorRing, P>, y: &Block<XorRing, P>) -> Block<XorRing, P>
    requires { length y.now ≡ length x.now }
    ensures words { result ≡ flipped (length x.now) x.now y.now }
    ensures len { length result ≡ length x.now }
{
    let mut turned = Block::new();
    for at in 0..x.len() {
        turned.append(x.word(at) ^ (y.word(at) % 2));
    }
    turned
}
