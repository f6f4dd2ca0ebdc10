ghost use Rattle.std.specs.Prelude.{◌≡◌, ◌+◌, ◌*◌, ◌≤◌, ℕ, List, length, take};
ghost use Rattle.proto_core.specs.Lists.{part};
ghost use Rattle.proto_core.specs.Elementwise.{plus, minus};
ghost use Rattle.multiply.specs.Products.{cross};

use crate::kernels::{add_crossed, add_part, take_part};
use lane_kernel::LaneRing;
use std::marker::Model;

/// How many words can be held.
const CAPACITY: usize = 512;

/// At most 512 words of one miner, kept in place, where the kernels work on them.
#[derive(Drop)]
pub(crate) struct HeldWords {
    words: [u64; CAPACITY],
    len: usize,
}

impl Model for HeldWords {
    ghost Value = { List ℕ };

    ghost view = { λ h. take h.len h.words };

    ghost invariant = { λ h. h.len ≤ 512 };
}

impl HeldWords {
    /// These words.
    pub(crate) fn from_words(words: &[u64]) -> Self
        requires { length words.now ≤ 512 }
        ensures { result ≡ words.now }
    {
        let mut held = [0; CAPACITY];
        held[..words.len()].copy_from_slice(words);
        HeldWords {
            words: held,
            len: words.len(),
        }
    }

    /// Field `number`, from 0, of `words`, where each field has `n` words.
    pub(crate) fn from_field(words: &[u64], number: usize, n: usize) -> Self
        requires few { n ≤ 512 }
        requires within { number * n + n ≤ length words.now }
        ensures { result ≡ part n number words.now }
    {
        let from = number * n;
        HeldWords::from_words(&words[from..from + n])
    }

    /// How many words.
    pub(crate) fn len(&self) -> usize
        ensures len { result ≡ length self.now }
        ensures bound { result ≤ 512 }
    {
        self.len
    }

    /// The words in order.
    pub(crate) fn words(&self) -> &[u64]
        ensures words { result.now ≡ self.now }
        ensures bound { length self.now ≤ 512 }
    {
        &self.words[..self.len]
    }

    /// Adds a field of `words`: field `number`, from 0, where each has as many words as are held.
    pub(crate) fn add_field<R: LaneRing>(&mut self, words: &[u64], number: usize)
        requires { number * length self.old + length self.old ≤ length words.now }
        ensures sum { self.new ≡ plus R.ring (length self.old) self.old (part (length self.old) number words.now) }
        ensures len { length self.new ≡ length self.old }
    {
        add_part::<R>(&mut self.words[..self.len], words, number);
    }

    /// Takes a field of `words` away: field `number`, from 0, where each has as many words as are held.
    pub(crate) fn take_field<R: LaneRing>(&mut self, words: &[u64], number: usize)
        requires { number * length self.old + length self.old ≤ length words.now }
        ensures difference { self.new ≡ minus R.ring (length self.old) self.old (part (length self.old) number words.now) }
        ensures len { length self.new ≡ length self.old }
    {
        take_part::<R>(&mut self.words[..self.len], words, number);
    }

    /// Adds the products `u v`, `u v'` and `u' v` of a party's factors and the previous party's `u'` and `v'`, which
    /// stand one after the other in `previous`, element by element.
    pub(crate) fn add_products<R: LaneRing>(
        &mut self,
        u: &HeldWords,
        v: &HeldWords,
        previous: &[u64],
    )
        requires u { length u.now ≡ length self.old }
        requires v { length v.now ≡ length self.old }
        requires previous { length previous.now ≡ 2 * length self.old }
        ensures share { self.new ≡ plus R.ring (length self.old)
            (cross R.ring (length self.old) u.now v.now (part (length self.old) 0 previous.now) (part (length self.old) 1 previous.now)) self.old }
        ensures len { length self.new ≡ length self.old }
    {
        add_crossed::<R>(&mut self.words[..self.len], u.words(), v.words(), previous);
    }
}
