// The products of two miners' factors.
ghost use Rattle.std.specs.Prelude.{◌≡◌, ◌+◌, ◌<◌, ◌≤◌, ◌^◌, length};
ghost use Rattle.std.specs.Simd.Lanes.{zip2, chunk, put_chunk};
ghost use Rattle.lane_kernel.specs.Lanewise.{crosses};

use crate::lanes::RingLanes;
use crate::over::LANES;
use std::simd::prelude::*;

// Eight words from a place on.
fn some_lanes<R: RingLanes>(w: &mut [u64], u: &[u64], v: &[u64], up: &[u64], vp: &[u64], at: usize)
    requires w { at + 8 ≤ length w.old }
    requires u { at + 8 ≤ length u.now }
    requires v { at + 8 ≤ length v.now }
    requires up { at + 8 ≤ length up.now }
    requires vp { at + 8 ≤ length vp.now }
    ensures { w.new ≡ put_chunk at w.old (zip2 R.ring.add (zip2 R.ring.add
        (zip2 R.ring.mul (chunk at 8 u.now) (chunk at 8 v.now)) (zip2 R.ring.mul (chunk at 8 u.now) (chunk at 8 vp.now)))
        (zip2 R.ring.mul (chunk at 8 up.now) (chunk at 8 v.now))) }
{
    let a = u64x8::from_slice(&u[at..]);
    let b = u64x8::from_slice(&v[at..]);
    let c = u64x8::from_slice(&up[at..]);
    let d = u64x8::from_slice(&vp[at..]);
    let both = R::add_lanes(R::mul_lanes(a, b), R::mul_lanes(a, d));
    R::add_lanes(both, R::mul_lanes(c, b)).copy_to_slice(&mut w[at..]);
}

/// Puts `u v + u v' + u' v` into `w`, place by place.
pub(crate) fn cross<R: RingLanes>(w: &mut [u64], u: &[u64], v: &[u64], up: &[u64], vp: &[u64])
    requires u { length u.now ≡ length w.old }
    requires v { length v.now ≡ length w.old }
    requires up { length up.now ≡ length w.old }
    requires vp { length vp.now ≡ length w.old }
    ensures { w.new ≡ crosses R.ring (length w.old) u.now v.now up.now vp.now }
{
    let n = w.len();
    let mut at = 0;
    while n - at >= LANES {
        some_lanes::<R>(w, u, v, up, vp, at);
        at += LANES;
    }
    while at < n {
        let own = R::mul(u[at], v[at]);
        let both = R::add(own, R::mul(u[at], vp[at]));
        w[at] = R::add(both, R::mul(up[at], v[at]));
        at += 1;
    }
}
