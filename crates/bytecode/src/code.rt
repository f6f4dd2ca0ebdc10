// Code in memory.
ghost use Rattle.std.specs.Prelude.{◌≤◌, length};

use crate::instruction::Instruction;
use crate::kind::Kind;
use sc_text::Name;

/// The letters with which the text of code begins.
pub(crate) const MAGIC: [u8; 4] = *b"SC3P";

/// A function. Its parameters are its first registers.
pub struct CodeFunction {
    pub parameters: u16,
    /// What the function gives back, if anything.
    pub gives: Option<Kind>,
    /// The kinds of the registers, at most 65,535.
    pub registers: Vec<Kind>,
    pub body: Vec<Instruction>,
    pub ghost few: { length registers.items ≤ 65535 },
}

// Written out, so that an early exit calls this once.
impl Drop for CodeFunction {
    fn drop(self) {
        let CodeFunction {
            parameters: _,
            gives: _,
            registers: _,
            body: _,
        } = self;
    }
}

/// Code: the names of its arguments and results, and its functions, of which the first is main.
pub struct Code {
    pub names: Vec<Name>,
    pub functions: Vec<CodeFunction>,
}

// Written out, so that an early exit calls this once.
impl Drop for Code {
    fn drop(self) {
        let Code {
            names: _,
            functions: _,
        } = self;
    }
}
