ghost use Rattle.std.specs.Prelude.{◌≡◌};
ghost use Rattle.proto_core.specs.Ring.{Ring, RingLaws};
ghost use Rattle.proto_core.specs.Rings.{add_ring, xor_ring};
ghost use Rattle.proto_core.specs.RingsKeepLaws.{add_ring_laws, xor_ring_laws};

/// A commutative ring on 64-bit words. Each operation wraps as its ring says, and none can fail.
pub trait ShareRing {
    ghost ring: { Ring };

    ghost laws: { RingLaws ring };

    /// The word that adds nothing.
    fn zero() -> u64
        ensures { result ≡ ring.zero };

    /// The ring's sum.
    fn add(a: u64, b: u64) -> u64
        ensures { result ≡ ring.add a b };

    /// The ring's difference: what has to be added to `b` to give `a`.
    fn sub(a: u64, b: u64) -> u64
        ensures { result ≡ ring.sub a b };

    /// The ring's product.
    fn mul(a: u64, b: u64) -> u64
        ensures { result ≡ ring.mul a b };
}

/// The integers modulo 2^64.
pub struct AddRing;

impl ShareRing for AddRing {
    ghost ring = { add_ring };

    ghost laws = { add_ring_laws };

    fn zero() -> u64 {
        0
    }

    fn add(a: u64, b: u64) -> u64 {
        a.wrapping_add(b)
    }

    fn sub(a: u64, b: u64) -> u64 {
        a.wrapping_sub(b)
    }

    fn mul(a: u64, b: u64) -> u64 {
        a.wrapping_mul(b)
    }
}

/// The 64-bit words, with xor as sum and `and` as product.
pub struct XorRing;

impl ShareRing for XorRing {
    ghost ring = { xor_ring };

    ghost laws = { xor_ring_laws };

    fn zero() -> u64 {
        0
    }

    #[tactic(auto, using(crate::specs::RingsKeepLaws::xor_is_word))]
    fn add(a: u64, b: u64) -> u64 {
        a ^ b
    }

    #[tactic(auto, using(crate::specs::RingsKeepLaws::xor_is_word))]
    fn sub(a: u64, b: u64) -> u64 {
        a ^ b
    }

    fn mul(a: u64, b: u64) -> u64 {
        a & b
    }
}

/// The integers modulo 2^64 keep the laws of a commutative ring.
pub fn add_ring_is_a_ring()
    ensures { RingLaws add_ring }
{}

/// The words under xor and `and` keep the laws of a commutative ring.
pub fn xor_ring_is_a_ring()
    ensures { RingLaws xor_ring }
{}

/// Whatever implements `ShareRing` keeps the laws of a commutative ring.
pub fn share_ring_is_a_ring<R: ShareRing>()
    ensures { RingLaws R.ring }
{}
