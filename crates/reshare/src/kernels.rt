// What resharing and opening make of words, place by place.
ghost use Rattle.std.specs.Prelude.{◌≡◌, length};
ghost use Rattle.proto_core.specs.Resharing.{reshared, sum_of_three};

use proto_core::ShareRing;

/// Adds the party's own mask to each word of the share, and takes the previous party's away.
pub(crate) fn add_masks<R: ShareRing>(share: &mut [u64], mask: &[u64], got: &[u64])
    requires mask { length mask.now ≡ length share.old }
    requires got { length got.now ≡ length share.old }
    ensures { share.new ≡ reshared R.ring (length share.old) share.old mask.now got.now }
{
    for at in 0..share.len() {
        share[at] = R::sub(R::add(share[at], mask[at]), got[at]);
    }
}

/// Adds two others' words to the share.
pub(crate) fn add_two<R: ShareRing>(share: &mut [u64], second: &[u64], third: &[u64])
    requires second { length second.now ≡ length share.old }
    requires third { length third.now ≡ length share.old }
    ensures { share.new ≡ sum_of_three R.ring (length share.old) share.old second.now third.now }
{
    for at in 0..share.len() {
        share[at] = R::add(R::add(share[at], second[at]), third[at]);
    }
}
