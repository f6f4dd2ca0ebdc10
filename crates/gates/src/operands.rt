// The values that a gate takes.
ghost use Rattle.std.specs.Prelude.{◌≡◌};
ghost use Rattle.gates.specs.Taken.{operands, numbers_of, is_among, first_size};

use crate::gate::Gate;
use crate::values::Values;

/// The numbers of the values that a gate takes.
#[derive(Clone, Copy, Drop, Debug)]
pub enum Operands {
    /// It takes none.
    Zero,
    /// One.
    One(u64),
    /// Two, which may be the same.
    Two(u64, u64),
}

impl Operands {
    /// Whether a number is among them.
    #[tactic(auto, using(crate::proofs::Taken::or_none))]
    pub fn has(self, number: u64) -> bool
        ensures { result ≡ is_among number (numbers_of self) }
    {
        match self {
            Operands::Zero => false,
            Operands::One(first) => first == number,
            Operands::Two(first, second) => first == number || second == number,
        }
    }

    /// How many words the first one has, and 0 where there is none.
    pub fn first_size(self, values: &Values) -> usize
        ensures { result ≡ first_size values.now (numbers_of self) }
    {
        match self {
            Operands::Zero => 0,
            Operands::One(first) | Operands::Two(first, _) => values.value(first).len(),
        }
    }
}

impl Gate {
    /// The numbers of the values that it takes.
    pub fn operands(&self) -> Operands
        ensures { numbers_of result ≡ operands self.now }
    {
        match self {
            Gate::Input { .. } | Gate::Const { .. } => Operands::Zero,
            Gate::Add { left, right }
            | Gate::Sub { left, right }
            | Gate::Mul { left, right }
            | Gate::Xor { left, right }
            | Gate::And { left, right }
            | Gate::Cat { left, right }
            | Gate::CatBit { left, right, .. } => Operands::Two(*left, *right),
            Gate::Put {
                operand,
                element,
                ..
            }
            | Gate::PutBit {
                operand,
                element,
                ..
            } => Operands::Two(*operand, *element),
            Gate::MulPub { operand, .. }
            | Gate::Not { operand }
            | Gate::Shl { operand, .. }
            | Gate::Shr { operand, .. }
            | Gate::Low { operand }
            | Gate::Part { operand, .. }
            | Gate::Rep { operand, .. }
            | Gate::Pack { operand }
            | Gate::Unpack { operand, .. }
            | Gate::RepBit { operand, .. }
            | Gate::PartBit { operand, .. }
            | Gate::Sum { operand }
            | Gate::Stretch { operand, .. }
            | Gate::Tile { operand, .. }
            | Gate::SumEach { operand, .. }
            | Gate::Split { operand, .. }
            | Gate::Conv { operand }
            | Gate::Open { operand, .. }
            | Gate::Result { operand, .. } => Operands::One(*operand),
        }
    }
}
