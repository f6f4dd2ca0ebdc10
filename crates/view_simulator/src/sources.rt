// What messages are made of.
ghost use Rattle.std.specs.Prelude.{◌≡◌, ◌≤◌, length, take, drop};
ghost use Rattle.joint_run.specs.Exchanges.{protocol_of};
ghost use Rattle.view_simulator.specs.Sources.{Reach, drawn_lists, left_lists, front, behind};

use joint_run::{Exchange, Tapes};
use proto_core::Number;
use std::marker::Model;

/// What the messages of a gate are made of: the miner's own share of the first operand, words of each miner, and opened words.
#[derive(Drop)]
pub(crate) struct Sources<'a> {
    pub u: &'a [u64],
    pub words: Tapes<'a>,
    pub opened: &'a [u64],
}

impl<'a> Model for Sources<'a> {
    ghost use Rattle.view_simulator.specs.Sources.{SourceWords};

    ghost Value = { SourceWords };

    ghost view = { λ s. record { u = s.u.now; words = s.words; opened = s.opened.now } };
}

/// How many words an exchange opens of n elements.
pub(crate) fn opens(exchange: Exchange, n: usize) -> usize
    ensures { result ≡ (protocol_of exchange).opens n }
{
    match exchange {
        Exchange::Opening(_) => n,
        Exchange::Product(_)
        | Exchange::Splitting(_)
        | Exchange::Conversion
        | Exchange::Resharing(_) => 0,
    }
}

/// So many words from the front, or all where there are fewer, and what is after them.
#[tactic(auto, using(crate::proofs::RowPieces::cut_steps))]
pub(crate) fn cut(words: &[u64], count: usize) -> (&[u64], &[u64])
    ensures front { result.0.now ≡ take count words.now }
    ensures behind { result.1.now ≡ drop count words.now }
{
    if count <= words.len() {
        words.split_at(count)
    } else {
        (words, &[])
    }
}

/// The words that each miner draws for n elements, and those after them.
pub(crate) fn draw<'a>(exchange: Exchange, n: usize, tapes: &Tapes<'a>) -> (Tapes<'a>, Tapes<'a>)
    requires { Reach (protocol_of exchange) n tapes.now }
    ensures drawn { result.0 ≡ drawn_lists (protocol_of exchange) n tapes.now }
    ensures left { result.1 ≡ left_lists (protocol_of exchange) n tapes.now }
{
    let (first, first_left) = tapes
        .first
        .split_at(exchange.draws(n, Number::One) as usize);
    let (second, second_left) = tapes
        .second
        .split_at(exchange.draws(n, Number::Two) as usize);
    let (third, third_left) = tapes
        .third
        .split_at(exchange.draws(n, Number::Three) as usize);
    (
        Tapes {
            first,
            second,
            third,
        },
        Tapes {
            first: first_left,
            second: second_left,
            third: third_left,
        },
    )
}

impl<'a> Sources<'a> {
    /// What belongs to the first m elements, and what is after it.
    pub fn split(self, exchange: Exchange, m: usize) -> (Sources<'a>, Sources<'a>)
        requires within { m ≤ length self.u }
        requires reach { Reach (protocol_of exchange) m self.words }
        ensures front { result.0 ≡ front (protocol_of exchange) m self.entry }
        ensures behind { result.1 ≡ behind (protocol_of exchange) m self.entry }
    {
        let (u, u_behind) = self.u.split_at(m);
        let (words, words_behind) = draw(exchange, m, &self.words);
        let (opened, opened_behind) = cut(self.opened, opens(exchange, m));
        (
            Sources { u, words, opened },
            Sources {
                u: u_behind,
                words: words_behind,
                opened: opened_behind,
            },
        )
    }
}
