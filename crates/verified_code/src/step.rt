use bytecode::{FunctionPlace, JumpTarget, Kind, Register};
use program_trees::{BinaryOperator, Cast, DataType, Operands};

/// A step: an instruction in which the operator, the operands' dimensions and the kinds are settled.
#[derive(Clone, Copy)]
pub enum Step<'c> {
    /// A public scalar; a truth value is 1 or 0.
    Literal {
        to: Register,
        element: DataType,
        word: u64,
    },
    Move {
        to: Register,
        source: Register,
    },
    Store {
        to: Register,
        source: Register,
    },
    Binary {
        line: u32,
        operator: BinaryOperator,
        operands: Operands,
        to: Register,
        left: Register,
        right: Register,
    },
    Not {
        to: Register,
        source: Register,
    },
    Cast {
        cast: Cast,
        to: Register,
        source: Register,
    },
    Classify {
        to: Register,
        source: Register,
    },
    Fill {
        line: u32,
        to: Register,
        size: Register,
        value: Register,
    },
    At {
        line: u32,
        to: Register,
        array: Register,
        index: Register,
    },
    Put {
        line: u32,
        array: Register,
        index: Register,
        value: Register,
    },
    Size {
        to: Register,
        source: Register,
    },
    Cat {
        line: u32,
        to: Register,
        left: Register,
        right: Register,
    },
    Sum {
        to: Register,
        source: Register,
    },
    Bits {
        line: u32,
        to: Register,
        source: Register,
    },
    Lookup {
        line: u32,
        to: Register,
        array: Register,
        index: Register,
    },
    Declassify {
        to: Register,
        source: Register,
    },
    /// The input of a name, where one of this kind is wanted.
    Argument {
        line: u32,
        kind: Kind,
        text: &'c str,
        to: Register,
    },
    Publish {
        text: &'c str,
        source: Register,
    },
    Assert {
        line: u32,
        condition: Register,
    },
    /// Goes to the target where the condition is the value.
    Branch {
        condition: Register,
        value: bool,
        target: JumpTarget,
    },
    Jump {
        target: JumpTarget,
    },
    /// A call; the result is let go where there is no register for it.
    Call {
        line: u32,
        function: FunctionPlace,
        to: Option<Register>,
        arguments: &'c [Register],
    },
    Return {
        source: Register,
    },
    ReturnNone,
}
