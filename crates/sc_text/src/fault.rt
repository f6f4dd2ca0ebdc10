ghost use Rattle.std.specs.Prelude.{Some};
ghost use Rattle.std.specs.Fmt.{WritesOnOk};
ghost use Rattle.sc_text.specs.Fault.{fault_text, fault_line};

use crate::{CountedFault, InputFault, PlacedFault, Span};
use std::fmt;

/// Why a command stopped before its end. Lines count from 1, bytes from 0.
pub enum Fault {
    /// The words name no command.
    Usage,
    /// L, Y and D: the program is wrong at a place.
    Placed { fault: PlacedFault, span: Span },
    /// X1 to X3: the program has too many of something, and how many.
    Counted { fault: CountedFault, count: u64 },
    /// I1 to I3: an input, public or share file is wrong.
    Input(InputFault),
    /// V1: a line of a view file or of a file of opened values is wrong.
    BadView { line: u64 },
    /// Q1: a tape file is wrong at this byte.
    BadTape { place: u64 },
    /// Q2: the dealer needs more words than its tape has.
    ShortTape { need: u128, have: u64 },
    /// S1: a line of a schedule is wrong.
    BadSchedule { line: u64 },
    /// A file could not be read or written.
    File { path: String },
    /// Standard output could not be written.
    Write,
    /// Memory ran out.
    Memory,
}

// Written out, so that an early exit calls this once.
impl Drop for Fault {
    fn drop(self) {
        match self {
            Fault::Usage
            | Fault::Placed { fault: _, span: _ }
            | Fault::Counted { fault: _, count: _ }
            | Fault::Input(_)
            | Fault::BadView { line: _ }
            | Fault::BadTape { place: _ }
            | Fault::ShortTape { need: _, have: _ }
            | Fault::BadSchedule { line: _ }
            | Fault::File { path: _ }
            | Fault::Write
            | Fault::Memory => {}
        }
    }
}

// What the fault's line says after `error: `.
#[tactic(auto, unfolding(crate::specs::Fault::fault_text))]
fn write_text<W: fmt::Write>(fault: &Fault, f: &mut fmt::Formatter<W>) -> fmt::Result
    ensures { WritesOnOk W.write_str_gives f.old result (fault_text fault.now) f.new }
{
    match fault {
        Fault::Usage => f.write_str("usage"),
        Fault::Placed { fault, span } => write!(f, "{fault} {span}"),
        Fault::Counted { fault, count } => write!(f, "{fault} {count}"),
        Fault::Input(fault) => write!(f, "{fault}"),
        Fault::BadView { line } => write!(f, "V1 line {line}"),
        Fault::BadTape { place } => write!(f, "Q1 place {place}"),
        Fault::ShortTape { need, have } => write!(f, "Q2 need {need} have {have}"),
        Fault::BadSchedule { line } => write!(f, "S1 line {line}"),
        Fault::File { path } => write!(f, "file {path}"),
        Fault::Write => f.write_str("write"),
        Fault::Memory => f.write_str("memory"),
    }
}

/// Writes the line for the error stream, with its newline.
impl fmt::Display for Fault {
    ghost output = { λ fault. Some (fault_line fault) };

    #[tactic(auto, unfolding(crate::specs::Fault::fault_line))]
    fn fmt<W: fmt::Write>(&self, f: &mut fmt::Formatter<W>) -> fmt::Result {
        f.write_str("error: ")?;
        write_text(self, f)?;
        f.write_str("\n")
    }
}
