ghost use Rattle.std.specs.Prelude.{Some};
ghost use Rattle.std.specs.Fmt.{WritesOnOk};
ghost use Rattle.command_frame.specs.Faults.{node_fault_line, node_fault_text};

use crate::kinds::{ByteFault, HelloField, StepFault};
use proto_core::{Link, Number};
use std::fmt;

/// Why a run by three programs is refused. Bytes, functions, instructions and words count from 0, lines from 1.
#[derive(Clone, Copy)]
pub enum NodeFault {
    /// B1 to B4: code can't be read, at this byte.
    Bytes {
        fault: ByteFault,
        place: u64,
    },
    /// B5 to B7: an instruction of code is wrong.
    Step {
        fault: StepFault,
        function: u16,
        instruction: u16,
    },
    /// N2: a peer's hello has another field than is wanted.
    OtherHello(HelloField),
    /// N3: a peer sent what is no frame or hello, by this byte of it.
    BadFrame {
        place: u64,
    },
    /// N4: a peer's message has another length.
    OtherLength {
        link: Link,
        want: u64,
        have: u64,
    },
    /// N4: a word of a peer's message must be 0 or 1.
    NotABit {
        link: Link,
        place: u64,
        word: u64,
    },
    /// C2: the texts of two miners differ in this line.
    Disagree {
        line: u64,
    },
    /// C3: a miner ended with a status that no end of a run has.
    ChildStatus {
        miner: Number,
        status: i32,
    },
    /// C4: this line of a miner's text is wrong.
    BadText {
        miner: Number,
        line: u64,
    },
}

// What the fault's line says after `error: `.
#[tactic(auto, unfolding(crate::specs::Faults::node_fault_text))]
fn write_text<W: fmt::Write>(fault: NodeFault, f: &mut fmt::Formatter<W>) -> fmt::Result
    ensures { WritesOnOk W.write_str_gives f.old result (node_fault_text fault) f.new }
{
    match fault {
        NodeFault::Bytes { fault, place } => write!(f, "{fault} place {place}"),
        NodeFault::Step {
            fault,
            function,
            instruction,
        } => write!(f, "{fault} function {function} instruction {instruction}"),
        NodeFault::OtherHello(field) => write!(f, "N2 {field}"),
        NodeFault::BadFrame { place } => write!(f, "N3 place {place}"),
        NodeFault::OtherLength { link, want, have } => {
            write!(f, "N4 link {link} want {want} have {have}")
        }
        NodeFault::NotABit { link, place, word } => {
            write!(f, "N4 link {link} place {place} word {word}")
        }
        NodeFault::Disagree { line } => write!(f, "C2 line {line}"),
        NodeFault::ChildStatus { miner, status } => write!(f, "C3 miner {miner} status {status}"),
        NodeFault::BadText { miner, line } => write!(f, "C4 miner {miner} line {line}"),
    }
}

/// Writes the line for the error stream, with its newline.
impl fmt::Display for NodeFault {
    ghost output = { λ fault. Some (node_fault_line fault) };

    #[tactic(auto, unfolding(crate::specs::Faults::node_fault_line))]
    fn fmt<W: fmt::Write>(&self, f: &mut fmt::Formatter<W>) -> fmt::Result {
        f.write_str("error: ")?;
        write_text(*self, f)?;
        f.write_str("\n")
    }
}
