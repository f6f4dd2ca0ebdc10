ghost use Rattle.std.specs.Prelude.{◌≡◌, length};
ghost use Rattle.proto_core.specs.Resharing.{reshared, sum_of_three};

use crate::block::Block;
use crate::ring::ShareRing;

/// A share masked anew: `u` with the party's own mask added and the previous party's mask taken away.
#[tactic(auto, using(crate::proofs::Each::each_steps), unfolding(crate::specs::Resharing::reshared))]
pub fn reshare<R: ShareRing, P>(
    u: &Block<R, P>,
    mask: &Block<R, P>,
    got: &Block<R, P>,
) -> Block<R, P>
    requires mask { length mask.now ≡ length u.now }
    requires got { length got.now ≡ length u.now }
    ensures share { result ≡ reshared R.ring (length u.now) u.now mask.now got.now }
    ensures len { length result ≡ length u.now }
{
    let mut share = Block::new();
    for at in 0..u.len() {
        share.append(R::sub(R::add(u.word(at), mask.word(at)), got.word(at)));
    }
    share
}

/// The ring's sum of three lists of words, element by element.
#[tactic(auto, using(crate::proofs::Each::each_steps), unfolding(crate::specs::Resharing::sum_of_three))]
pub fn sum_of_shares<R: ShareRing, P>(
    x: &Block<R, P>,
    y: &Block<R, P>,
    z: &Block<R, P>,
) -> Block<R, P>
    requires second { length y.now ≡ length x.now }
    requires third { length z.now ≡ length x.now }
    ensures sum { result ≡ sum_of_three R.ring (length x.now) x.now y.now z.now }
    ensures len { length result ≡ length x.now }
{
    let mut sum = Block::new();
    for at in 0..x.len() {
        sum.append(R::add(R::add(x.word(at), y.word(at)), z.word(at)));
    }
    sum
}
