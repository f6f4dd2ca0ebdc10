// What converting makes of words, place by place.
ghost use Rattle.std.specs.Prelude.{◌≡◌, ◌+◌, ◌*◌, ◌≤◌, [], length};
ghost use Rattle.proto_core.specs.Rings.{add_ring};
ghost use Rattle.proto_core.specs.Lists.{part};
ghost use Rattle.proto_core.specs.Elementwise.{minus};
ghost use Rattle.share_convert.specs.Bits.{bits, xor_bits, bits_less};
ghost use Rattle.share_convert.specs.ConvStrand.{one_share, two_share, three_share};

use crate::bits::{choose, negative};
use proto_core::{AddRing, ShareRing};

/// Keeps the lowest bit of each word.
pub(crate) fn keep_lowest(x: &mut [u64])
    ensures { x.new ≡ bits (length x.old) x.old }
{
    for at in 0..x.len() {
        x[at] %= 2;
    }
}

/// Makes each word the lowest bit of its xor with field `number`, from 0, of `words`, where each field has as many words
/// as `x`.
pub(crate) fn xor_field(x: &mut [u64], words: &[u64], number: usize)
    requires { number * length x.old + length x.old ≤ length words.now }
    ensures { x.new ≡ xor_bits (length x.old) (part (length x.old) number words.now) x.old }
{
    let from = number * x.len();
    for at in 0..x.len() {
        x[at] = (words[from + at] ^ x[at]) % 2;
    }
}

/// Makes each word the lowest bit of its xor with field 0 of `words`, as a number, without field 2.
pub(crate) fn mask_field(x: &mut [u64], words: &[u64])
    requires { 3 * length x.old ≤ length words.now }
    ensures { x.new ≡ bits_less (length x.old) (part (length x.old) 0 words.now) x.old (part (length x.old) 2 words.now) }
{
    let from = 2 * x.len();
    for at in 0..x.len() {
        x[at] = AddRing::sub((words[at] ^ x[at]) % 2, words[from + at]);
    }
}

/// Takes field `number`, from 0, of `words` away from `x`, where each field has as many words as `x`.
pub(crate) fn take_field(x: &mut [u64], words: &[u64], number: usize)
    requires { number * length x.old + length x.old ≤ length words.now }
    ensures { x.new ≡ minus add_ring (length x.old) x.old (part (length x.old) number words.now) }
{
    let from = number * x.len();
    for at in 0..x.len() {
        x[at] = AddRing::sub(x[at], words[from + at]);
    }
}

/// Makes the first miner's share of its mask and what came.
pub(crate) fn first_share(mask: &mut [u64], got: &[u64])
    requires { length got.now ≡ length mask.old }
    ensures { mask.new ≡ one_share (length mask.old) (record { bits = []; word = []; mask = mask.old }) got.now }
{
    for at in 0..mask.len() {
        mask[at] = AddRing::sub(AddRing::add(AddRing::zero(), mask[at]), got[at]);
    }
}

/// Makes the second miner's share of its mask, the bits and words that it holds, and what came.
pub(crate) fn second_share(mask: &mut [u64], bits: &[u64], word: &[u64], got: &[u64])
    requires bits { length bits.now ≡ length mask.old }
    requires word { length word.now ≡ length mask.old }
    requires got { length got.now ≡ length mask.old }
    ensures { mask.new ≡ two_share (length mask.old) (record { bits = bits.now; word = word.now; mask = mask.old }) got.now }
{
    for at in 0..mask.len() {
        let bit = (bits[at] ^ got[at]) % 2;
        let summand = choose(bit, word[at], AddRing::sub(1, word[at]));
        mask[at] = AddRing::add(summand, mask[at]);
    }
}

/// Makes the third miner's share of its mask, the bits and words that it holds, and what came.
pub(crate) fn third_share(mask: &mut [u64], bits: &[u64], word: &[u64], got: &[u64])
    requires bits { length bits.now ≡ length mask.old }
    requires word { length word.now ≡ length mask.old }
    requires got { length got.now ≡ 2 * length mask.old }
    ensures { mask.new ≡ three_share (length mask.old) (record { bits = bits.now; word = word.now; mask = mask.old }) got.now }
{
    let n = mask.len();
    for at in 0..n {
        let bit = (got[at] ^ bits[at]) % 2;
        let summand = choose(bit, word[at], negative(word[at]));
        mask[at] = AddRing::sub(AddRing::add(summand, mask[at]), got[n + at]);
    }
}
