// Fields of words on words of the same number, place by place.
ghost use Rattle.std.specs.Prelude.{◌≡◌, ◌+◌, ◌*◌, ◌≤◌, length};
ghost use Rattle.proto_core.specs.Lists.{part};
ghost use Rattle.proto_core.specs.Elementwise.{plus, minus};
ghost use Rattle.multiply.specs.Products.{cross};

use lane_kernel::LaneRing;

/// How many places' products are made at once.
const SOME: usize = 64;

/// Adds field `number`, from 0, of `words` to `x`, where each field has as many words as `x`.
pub(crate) fn add_part<R: LaneRing>(x: &mut [u64], words: &[u64], number: usize)
    requires { number * length x.old + length x.old ≤ length words.now }
    ensures { x.new ≡ plus R.ring (length x.old) x.old (part (length x.old) number words.now) }
{
    let n = x.len();
    let from = number * n;
    R::add_into(x, &words[from..from + n]);
}

/// Takes field `number`, from 0, of `words` away from `x`, where each field has as many words as `x`.
pub(crate) fn take_part<R: LaneRing>(x: &mut [u64], words: &[u64], number: usize)
    requires { number * length x.old + length x.old ≤ length words.now }
    ensures { x.new ≡ minus R.ring (length x.old) x.old (part (length x.old) number words.now) }
{
    let n = x.len();
    let from = number * n;
    R::sub_into(x, &words[from..from + n]);
}

/// Adds the products `u v`, `u v'` and `u' v` to `share`, at no more places than are made at once.
fn add_some_crossed<R: LaneRing>(share: &mut [u64], u: &[u64], v: &[u64], up: &[u64], vp: &[u64])
    requires few { length share.old ≤ 64 }
    requires u { length u.now ≡ length share.old }
    requires v { length v.now ≡ length share.old }
    requires up { length up.now ≡ length share.old }
    requires vp { length vp.now ≡ length share.old }
    ensures { share.new ≡ plus R.ring (length share.old) (cross R.ring (length share.old) u.now v.now up.now vp.now) share.old }
{
    let mut made = [0; SOME];
    let products = &mut made[..share.len()];
    R::cross_into(products, u, v, up, vp);
    R::add_into(share, products);
}

/// Adds the products `u v`, `u v'` and `u' v` of a party's factors and the previous party's `u'` and `v'`, which stand
/// one after the other in `previous`, to `share`, place by place.
pub(crate) fn add_crossed<R: LaneRing>(share: &mut [u64], u: &[u64], v: &[u64], previous: &[u64])
    requires u { length u.now ≡ length share.old }
    requires v { length v.now ≡ length share.old }
    requires previous { length previous.now ≡ 2 * length share.old }
    ensures { share.new ≡ plus R.ring (length share.old)
        (cross R.ring (length share.old) u.now v.now (part (length share.old) 0 previous.now) (part (length share.old) 1 previous.now)) share.old }
{
    let n = share.len();
    let mut at = 0;
    while at < n {
        let end = n.min(at + SOME);
        let (up, vp) = (&previous[at..end], &previous[n + at..n + end]);
        add_some_crossed::<R>(&mut share[at..end], &u[at..end], &v[at..end], up, vp);
        at = end;
    }
}
