ghost use Rattle.std.specs.Prelude.{◌≡◌, ◌≤◌, length};
ghost use Rattle.proto_core.specs.Elementwise.{plus, minus, zeros};

use crate::block::Block;
use crate::ring::ShareRing;

/// The ring's sum of two blocks, element by element.
#[tactic(auto, using(crate::proofs::Each::each_steps), unfolding(crate::specs::Elementwise::plus))]
pub fn add_blocks<R: ShareRing, P>(x: &Block<R, P>, y: &Block<R, P>) -> Block<R, P>
    requires { length y.now ≡ length x.now }
    ensures sum { result ≡ plus R.ring (length x.now) x.now y.now }
    ensures len { length result ≡ length x.now }
{
    let mut sum = Block::new();
    for at in 0..x.len() {
        sum.append(R::add(x.word(at), y.word(at)));
    }
    sum
}

/// The ring's difference of two blocks, element by element.
#[tactic(auto, using(crate::proofs::Each::each_steps), unfolding(crate::specs::Elementwise::minus))]
pub fn subtract_blocks<R: ShareRing, P>(x: &Block<R, P>, y: &Block<R, P>) -> Block<R, P>
    requires { length y.now ≡ length x.now }
    ensures difference { result ≡ minus R.ring (length x.now) x.now y.now }
    ensures len { length result ≡ length x.now }
{
    let mut difference = Block::new();
    for at in 0..x.len() {
        difference.append(R::sub(x.word(at), y.word(at)));
    }
    difference
}

/// `n` times the ring's zero.
#[tactic(auto, using(crate::proofs::Each::each_steps), unfolding(crate::specs::Elementwise::zeros))]
pub fn zero_block<R: ShareRing, P>(n: usize) -> Block<R, P>
    requires { n ≤ 512 }
    ensures words { result ≡ zeros R.ring n }
    ensures len { length result ≡ n }
{
    let mut block = Block::new();
    for _at in 0..n {
        block.append(R::zero());
    }
    block
}
