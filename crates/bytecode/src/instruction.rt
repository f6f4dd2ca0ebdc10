use program_trees::OperatorSign;

/// A register of a function, by its place.
#[derive(Clone, Copy)]
pub struct Register(pub u16);

/// The register that stands in a call for no result.
pub const NO_RESULT: u16 = 65_535;

/// A name of the code, by its place.
#[derive(Clone, Copy)]
pub struct NamePlace(pub u16);

/// A function of the code, by its place.
#[derive(Clone, Copy)]
pub struct FunctionPlace(pub u16);

/// An instruction of a function, by its place.
#[derive(Clone, Copy)]
pub struct JumpTarget(pub u16);

/// An instruction. A line is that of the construct in the program; it stands where a trap can come.
pub enum Instruction {
    /// A public scalar; a bool is 0 or 1.
    Literal {
        to: Register,
        word: u64,
    },
    Move {
        to: Register,
        source: Register,
    },
    /// A move into a variable, which is charged.
    Store {
        to: Register,
        source: Register,
    },
    /// The operator of this sign between operands of their data type.
    Binary {
        sign: OperatorSign,
        to: Register,
        left: Register,
        right: Register,
        line: u32,
    },
    Not {
        to: Register,
        source: Register,
    },
    Cast {
        to: Register,
        source: Register,
    },
    /// A private value of a public one.
    Classify {
        to: Register,
        source: Register,
    },
    /// An array of so many elements, each the value.
    Fill {
        to: Register,
        size: Register,
        value: Register,
        line: u32,
    },
    /// An element of an array.
    At {
        to: Register,
        array: Register,
        index: Register,
        line: u32,
    },
    /// Writes an element of an array.
    Put {
        array: Register,
        index: Register,
        value: Register,
        line: u32,
    },
    Size {
        to: Register,
        source: Register,
    },
    /// An array and another after it.
    Cat {
        to: Register,
        left: Register,
        right: Register,
        line: u32,
    },
    Sum {
        to: Register,
        source: Register,
    },
    Bits {
        to: Register,
        source: Register,
        line: u32,
    },
    /// The elements of a private array at private indices, 0 where there is none: at one index, or at each of an array of them.
    Lookup {
        to: Register,
        array: Register,
        index: Register,
        line: u32,
    },
    Declassify {
        to: Register,
        source: Register,
    },
    /// The input of a name.
    Argument {
        to: Register,
        name: NamePlace,
        line: u32,
    },
    /// Gives a value to the client, under a name.
    Publish {
        name: NamePlace,
        source: Register,
    },
    Assert {
        condition: Register,
        line: u32,
    },
    /// Goes to the target where the condition is the value.
    Branch {
        condition: Register,
        value: bool,
        target: JumpTarget,
    },
    Jump {
        target: JumpTarget,
    },
    /// A call; the result is let go where there is no register for it. A result in register 65535 counts as none.
    Call {
        function: FunctionPlace,
        to: Option<Register>,
        arguments: Vec<Register>,
        line: u32,
    },
    Return {
        source: Register,
    },
    ReturnNone,
}

// Written out, so that an early exit calls this once for an instruction that it gives up.
impl Drop for Instruction {
    fn drop(self) {
        match self {
            Instruction::Literal { to: _, word: _ }
            | Instruction::Move { to: _, source: _ }
            | Instruction::Store { to: _, source: _ }
            | Instruction::Binary {
                sign: _,
                to: _,
                left: _,
                right: _,
                line: _,
            }
            | Instruction::Not { to: _, source: _ }
            | Instruction::Cast { to: _, source: _ }
            | Instruction::Classify { to: _, source: _ }
            | Instruction::Fill {
                to: _,
                size: _,
                value: _,
                line: _,
            }
            | Instruction::At {
                to: _,
                array: _,
                index: _,
                line: _,
            }
            | Instruction::Put {
                array: _,
                index: _,
                value: _,
                line: _,
            }
            | Instruction::Size { to: _, source: _ }
            | Instruction::Cat {
                to: _,
                left: _,
                right: _,
                line: _,
            }
            | Instruction::Sum { to: _, source: _ }
            | Instruction::Bits {
                to: _,
                source: _,
                line: _,
            }
            | Instruction::Lookup {
                to: _,
                array: _,
                index: _,
                line: _,
            }
            | Instruction::Declassify { to: _, source: _ }
            | Instruction::Argument {
                to: _,
                name: _,
                line: _,
            }
            | Instruction::Publish { name: _, source: _ }
            | Instruction::Assert {
                condition: _,
                line: _,
            }
            | Instruction::Branch {
                condition: _,
                value: _,
                target: _,
            }
            | Instruction::Jump { target: _ }
            | Instruction::Call {
                function: _,
                to: _,
                arguments: _,
                line: _,
            }
            | Instruction::Return { source: _ }
            | Instruction::ReturnNone => {}
        }
    }
}
