ghost use Rattle.std.specs.Prelude.{◌≡◌, Some};
ghost use Rattle.proto_core.specs.declared.party.Number.{Number};
ghost use Rattle.proto_core.specs.declared.party.Number.TheVariants.{One, Two, Three};
ghost use Rattle.proto_core.specs.Parties.{next_of, previous_of, to_next, to_previous, count_of, number_text};

use crate::link::Link;
use std::fmt;

/// A miner's number. Each miner has a next one and a previous one, in a ring of three.
#[derive(Clone, Copy, Debug)]
pub enum Number {
    One,
    Two,
    Three,
}

impl Number {
    /// The miner after this one; after the third comes the first.
    pub fn next(self) -> Number
        ensures { result ≡ next_of self }
    {
        match self {
            Number::One => Number::Two,
            Number::Two => Number::Three,
            Number::Three => Number::One,
        }
    }

    /// The miner before this one; before the first comes the third.
    pub fn previous(self) -> Number
        ensures { result ≡ previous_of self }
    {
        match self {
            Number::One => Number::Three,
            Number::Two => Number::One,
            Number::Three => Number::Two,
        }
    }

    /// The link from this miner to the next.
    pub fn link_to_next(self) -> Link
        ensures { result ≡ to_next self }
    {
        match self {
            Number::One => Link::Link12,
            Number::Two => Link::Link23,
            Number::Three => Link::Link31,
        }
    }

    /// The link from this miner to the previous.
    pub fn link_to_previous(self) -> Link
        ensures { result ≡ to_previous self }
    {
        match self {
            Number::One => Link::Link13,
            Number::Two => Link::Link21,
            Number::Three => Link::Link32,
        }
    }

    /// 1, 2 or 3.
    pub fn as_u8(self) -> u8
        ensures { result ≡ count_of self }
    {
        match self {
            Number::One => 1,
            Number::Two => 2,
            Number::Three => 3,
        }
    }
}

/// Written `1`, `2` or `3`.
impl fmt::Display for Number {
    ghost output = { λ number. Some (number_text number) };

    fn fmt<W: fmt::Write>(&self, f: &mut fmt::Formatter<W>) -> fmt::Result {
        f.write_str(match self {
            Number::One => "1",
            Number::Two => "2",
            Number::Three => "3",
        })
    }
}

/// A miner, known as a type.
pub trait Party {
    ghost me: { Number };

    /// The miner's number.
    fn number() -> Number
        ensures { result ≡ me };
}

/// The first miner.
pub struct P1;

/// The second miner.
pub struct P2;

/// The third miner.
pub struct P3;

impl Party for P1 {
    ghost me = { One };

    fn number() -> Number {
        Number::One
    }
}

impl Party for P2 {
    ghost me = { Two };

    fn number() -> Number {
        Number::Two
    }
}

impl Party for P3 {
    ghost me = { Three };

    fn number() -> Number {
        Number::Three
    }
}
