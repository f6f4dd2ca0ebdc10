// What the three miners begin a gate with.
ghost use Rattle.std.specs.Prelude.{◌≡◌, ◌≤◌, length, take, drop};
ghost use Rattle.joint_run.specs.Three.{joint};
ghost use Rattle.gate_exchanges.specs.Exchanges.{protocol_of, HasEnough, IsFront, IsBehind};

use gate_exchanges::Exchange;
use proto_core::Number;
use std::marker::Model;

/// What one miner begins a gate with: its shares of the operands, of which the second is empty where the gate has one, and
/// the words that it draws.
#[derive(Clone, Copy)]
pub struct Own<'a> {
    pub u: &'a [u64],
    pub v: &'a [u64],
    pub words: &'a [u64],
}

impl<'a> Own<'a> {
    /// So many from the front of each list, and what is after them.
    fn split(self, u: usize, v: usize, words: usize) -> (Own<'a>, Own<'a>)
        requires u { u ≤ length self.u.now }
        requires v { v ≤ length self.v.now }
        requires words { words ≤ length self.words.now }
        ensures u_front { result.0.u.now ≡ take u self.entry.u.now }
        ensures v_front { result.0.v.now ≡ take v self.entry.v.now }
        ensures words_front { result.0.words.now ≡ take words self.entry.words.now }
        ensures u_behind { result.1.u.now ≡ drop u self.entry.u.now }
        ensures v_behind { result.1.v.now ≡ drop v self.entry.v.now }
        ensures words_behind { result.1.words.now ≡ drop words self.entry.words.now }
    {
        let (u, u_behind) = self.u.split_at(u);
        let (v, v_behind) = self.v.split_at(v);
        let (words, words_behind) = self.words.split_at(words);
        (
            Own { u, v, words },
            Own {
                u: u_behind,
                v: v_behind,
                words: words_behind,
            },
        )
    }
}

/// What the three miners begin a gate with. Clauses see the lists of all three.
#[derive(Drop)]
pub struct Operands<'a> {
    pub first: Own<'a>,
    pub second: Own<'a>,
    pub third: Own<'a>,
}

impl<'a> Model for Operands<'a> {
    ghost use Rattle.joint_run.specs.Parts.{Parts};

    ghost Value = { Parts };

    ghost view = { λ o. record {
      u = record { first = o.first.u.now; second = o.second.u.now; third = o.third.u.now };
      v = record { first = o.first.v.now; second = o.second.v.now; third = o.third.v.now };
      words = record { first = o.first.words.now; second = o.second.words.now; third = o.third.words.now };
    } };
}

impl<'a> Operands<'a> {
    /// How many elements the first operand has.
    pub fn len(&self) -> usize
        ensures { result ≡ length self.now.u.first }
    {
        self.first.u.len()
    }

    /// What belongs to the first m elements, and what is after them.
    pub fn split(self, exchange: Exchange, m: usize) -> (Operands<'a>, Operands<'a>)
        requires { HasEnough (protocol_of exchange) m (joint self) }
        ensures front { IsFront (protocol_of exchange) m (joint self.entry) (joint result.0) }
        ensures behind { IsBehind (protocol_of exchange) m (joint self.entry) (joint result.1) }
        ensures len { length result.0.u.first ≡ m }
    {
        let v = exchange.second(m);
        let (first, first_behind) = self
            .first
            .split(m, v, exchange.draws(m, Number::One) as usize);
        let (second, second_behind) = self
            .second
            .split(m, v, exchange.draws(m, Number::Two) as usize);
        let (third, third_behind) = self
            .third
            .split(m, v, exchange.draws(m, Number::Three) as usize);
        (
            Operands {
                first,
                second,
                third,
            },
            Operands {
                first: first_behind,
                second: second_behind,
                third: third_behind,
            },
        )
    }
}
