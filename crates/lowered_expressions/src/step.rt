use bytecode::Kind;
use program_trees::{BinaryOperator, Cast, DataType, Operands};
use sc_text::Name;

/// A step of a function's code. Registers, places and functions are numbers as large as they come; a line is that of the construct
/// in the program.
pub enum Step<'p> {
    /// A public scalar; a truth value is 1 or 0.
    Literal {
        to: usize,
        element: DataType,
        word: u64,
    },
    Move {
        to: usize,
        source: usize,
    },
    Store {
        to: usize,
        source: usize,
    },
    Binary {
        line: u32,
        operator: BinaryOperator,
        operands: Operands,
        to: usize,
        left: usize,
        right: usize,
    },
    Not {
        to: usize,
        source: usize,
    },
    Cast {
        cast: Cast,
        to: usize,
        source: usize,
    },
    Classify {
        to: usize,
        source: usize,
    },
    Fill {
        line: u32,
        to: usize,
        size: usize,
        value: usize,
    },
    At {
        line: u32,
        to: usize,
        array: usize,
        index: usize,
    },
    Put {
        line: u32,
        array: usize,
        index: usize,
        value: usize,
    },
    Size {
        to: usize,
        source: usize,
    },
    Cat {
        line: u32,
        to: usize,
        left: usize,
        right: usize,
    },
    Sum {
        to: usize,
        source: usize,
    },
    Bits {
        line: u32,
        to: usize,
        source: usize,
    },
    Lookup {
        line: u32,
        to: usize,
        array: usize,
        index: usize,
    },
    Declassify {
        to: usize,
        source: usize,
    },
    /// The input of a name, where one of this kind is wanted.
    Argument {
        line: u32,
        kind: Kind,
        text: &'p Name,
        to: usize,
    },
    Publish {
        text: &'p Name,
        source: usize,
    },
    Assert {
        line: u32,
        condition: usize,
    },
    /// Goes to the target where the condition is the value.
    Branch {
        condition: usize,
        value: bool,
        target: usize,
    },
    Jump {
        target: usize,
    },
    /// A call; the result is let go where there is no register for it.
    Call {
        line: u32,
        function: usize,
        to: Option<usize>,
        arguments: Vec<usize>,
    },
    Return {
        source: usize,
    },
    ReturnNone,
}

/// A piece of a body that is being made: a step, or a jump after or to the loop around it, of which the place isn't known yet.
#[derive(Drop)]
pub enum BodyPiece<'p> {
    Whole(Step<'p>),
    Break,
    Continue,
}

// Written out, so that an early exit calls this once for a step that it gives up.
impl Drop for Step<'_> {
    fn drop(self) {
        match self {
            Step::Literal {
                to: _,
                element: _,
                word: _,
            }
            | Step::Move { to: _, source: _ }
            | Step::Store { to: _, source: _ }
            | Step::Binary {
                line: _,
                operator: _,
                operands: _,
                to: _,
                left: _,
                right: _,
            }
            | Step::Not { to: _, source: _ }
            | Step::Cast {
                cast: _,
                to: _,
                source: _,
            }
            | Step::Classify { to: _, source: _ }
            | Step::Fill {
                line: _,
                to: _,
                size: _,
                value: _,
            }
            | Step::At {
                line: _,
                to: _,
                array: _,
                index: _,
            }
            | Step::Put {
                line: _,
                array: _,
                index: _,
                value: _,
            }
            | Step::Size { to: _, source: _ }
            | Step::Cat {
                line: _,
                to: _,
                left: _,
                right: _,
            }
            | Step::Sum { to: _, source: _ }
            | Step::Bits {
                line: _,
                to: _,
                source: _,
            }
            | Step::Lookup {
                line: _,
                to: _,
                array: _,
                index: _,
            }
            | Step::Declassify { to: _, source: _ }
            | Step::Argument {
                line: _,
                kind: _,
                text: _,
                to: _,
            }
            | Step::Publish { text: _, source: _ }
            | Step::Assert {
                line: _,
                condition: _,
            }
            | Step::Branch {
                condition: _,
                value: _,
                target: _,
            }
            | Step::Jump { target: _ }
            | Step::Call {
                line: _,
                function: _,
                to: _,
                arguments: _,
            }
            | Step::Return { source: _ }
            | Step::ReturnNone => {}
        }
    }
}
