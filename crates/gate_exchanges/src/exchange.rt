// The gates that send messages.
ghost use Rattle.std.specs.Prelude.{◌≡◌};
ghost use Rattle.gate_exchanges.specs.Exchanges.{protocol_of, makes_two};

use gates::RingKind;
use proto_core::Number;

/// A gate that sends messages, without its operands.
#[derive(Clone, Copy)]
pub enum Exchange {
    /// The product of two values, in a ring.
    Product(RingKind),
    /// Two words in the place of a number, whose sum it is, or, negated, whose difference.
    Splitting(bool),
    /// A truth value turned into a number.
    Conversion,
    /// A value opened to all miners.
    Opening(RingKind),
    /// A value shared anew, for the client.
    Resharing(RingKind),
}

impl Exchange {
    /// Whether two values are made, and not one.
    pub fn makes_two(self) -> bool
        ensures { result ≡ makes_two self }
    {
        match self {
            Exchange::Splitting(_) => true,
            Exchange::Product(_)
            | Exchange::Conversion
            | Exchange::Opening(_)
            | Exchange::Resharing(_) => false,
        }
    }

    /// How many elements the second operand has where the first has n: none where there is no second operand.
    pub fn second(self, n: usize) -> usize
        ensures { result ≡ (protocol_of self).second n }
    {
        match self {
            Exchange::Product(_) => n,
            Exchange::Splitting(_)
            | Exchange::Conversion
            | Exchange::Opening(_)
            | Exchange::Resharing(_) => 0,
        }
    }

    /// How many words a miner draws for n elements.
    pub fn draws(self, n: usize, miner: Number) -> u128
        ensures { result ≡ (protocol_of self).draws n miner }
    {
        let n = n as u128;
        match self {
            Exchange::Product(_) => 3 * n,
            Exchange::Splitting(_) => match miner {
                Number::One => n,
                Number::Two | Number::Three => 0,
            },
            Exchange::Conversion => match miner {
                Number::One => 4 * n,
                Number::Two | Number::Three => n,
            },
            Exchange::Opening(_) | Exchange::Resharing(_) => n,
        }
    }
}
