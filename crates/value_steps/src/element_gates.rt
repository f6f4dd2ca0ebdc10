// The gates of arrays, by what their elements are: those of truth values work on single bits of packed words.
ghost use Rattle.std.specs.Prelude.{◌≡◌};
ghost use Rattle.language_model.specs.Operations.{repeated_gate, element_gate, stored_gate, joined_gate};

use gates::Gate;
use program_trees::DataType;

/// The gate that repeats a scalar `count` times.
pub(crate) fn repeated_gate(element: DataType, operand: u64, count: u64) -> Gate
    ensures { result ≡ repeated_gate element operand count }
{
    match element {
        DataType::Uint64 | DataType::Int64 => Gate::Rep { operand, count },
        DataType::Bool => Gate::RepBit { operand, count },
    }
}

/// The gate that takes the element at an index.
pub(crate) fn element_gate(element: DataType, operand: u64, index: u64) -> Gate
    ensures { result ≡ element_gate element operand index }
{
    match element {
        DataType::Uint64 | DataType::Int64 => Gate::Part {
            operand,
            from: index,
            count: 1,
        },
        DataType::Bool => Gate::PartBit { operand, index },
    }
}

/// The gate that stores a scalar, the value of number `stored`, at an index.
pub(crate) fn stored_gate(element: DataType, operand: u64, index: u64, stored: u64) -> Gate
    ensures { result ≡ stored_gate element operand index stored }
{
    match element {
        DataType::Uint64 | DataType::Int64 => Gate::Put {
            operand,
            index,
            element: stored,
        },
        DataType::Bool => Gate::PutBit {
            operand,
            index,
            element: stored,
        },
    }
}

/// An operand of gates: the number of its value, and how many elements it has.
#[derive(Clone, Copy)]
pub(crate) struct SizedOperand {
    pub number: u64,
    pub size: u64,
}

/// The gate that joins two arrays.
pub(crate) fn joined_gate(element: DataType, left: SizedOperand, right: SizedOperand) -> Gate
    ensures { result ≡ joined_gate element left.number left.size right.number right.size }
{
    match element {
        DataType::Uint64 | DataType::Int64 => Gate::Cat {
            left: left.number,
            right: right.number,
        },
        DataType::Bool => Gate::CatBit {
            left: left.number,
            left_count: left.size,
            right: right.number,
            right_count: right.size,
        },
    }
}
