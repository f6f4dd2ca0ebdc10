// The miners' random words.
ghost use Rattle.std.specs.Prelude.{◌≡◌, ◌≤◌, length, take, drop};
ghost use Rattle.proto_core.specs.declared.party.Number.{Number as NumberValue};
ghost use Rattle.proto_core.specs.declared.party.Number.TheVariants.{One, Two, Three};
ghost use Rattle.joint_run.specs.Three.{each_of};
ghost use Rattle.gate_exchanges.specs.Exchanges.{protocol_of};

use gate_exchanges::Exchange;
use proto_core::Number;
use std::marker::Model;

/// What is left of each miner's tape.
#[derive(Drop)]
pub struct Tapes<'a> {
    pub first: &'a [u64],
    pub second: &'a [u64],
    pub third: &'a [u64],
}

impl<'a> Model for Tapes<'a> {
    ghost use Rattle.joint_run.specs.Parts.{ThreeLists};

    ghost Value = { ThreeLists };

    ghost view = { λ t. record { first = t.first.now; second = t.second.now; third = t.third.now } };
}

impl<'a> Tapes<'a> {
    /// What is left of a miner's tape.
    pub fn of(&self, miner: Number) -> &'a [u64]
        ensures { result.now ≡ each_of self.now miner }
    {
        match miner {
            Number::One => self.first,
            Number::Two => self.second,
            Number::Three => self.third,
        }
    }

    /// Takes the words that each miner draws for n elements off its tape.
    pub(crate) fn draw(&mut self, exchange: Exchange, n: usize) -> Tapes<'a>
        requires first { (protocol_of exchange).draws n One ≤ length self.old.first }
        requires second { (protocol_of exchange).draws n Two ≤ length self.old.second }
        requires third { (protocol_of exchange).draws n Three ≤ length self.old.third }
        ensures drawn { (i : NumberValue) → each_of result i ≡ take ((protocol_of exchange).draws n i) (each_of self.old i) }
        ensures left { (i : NumberValue) → each_of self.new i ≡ drop ((protocol_of exchange).draws n i) (each_of self.old i) }
    {
        let (first, first_left) = self.first.split_at(exchange.draws(n, Number::One) as usize);
        let (second, second_left) = self
            .second
            .split_at(exchange.draws(n, Number::Two) as usize);
        let (third, third_left) = self
            .third
            .split_at(exchange.draws(n, Number::Three) as usize);
        self.first = first_left;
        self.second = second_left;
        self.third = third_left;
        Tapes {
            first,
            second,
            third,
        }
    }
}
