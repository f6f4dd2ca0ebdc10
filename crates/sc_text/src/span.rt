ghost use Rattle.std.specs.Prelude.{Some};
ghost use Rattle.sc_text.specs.Fault.{span_text};

use std::fmt;

/// A place in a program's text: the line and the byte in it, both counted from 1.
#[derive(Clone, Copy)]
pub struct Span {
    pub line: u32,
    pub column: u32,
}

/// Writes the place, as in `line 2 column 33`.
impl fmt::Display for Span {
    ghost output = { λ span. Some (span_text span) };

    #[tactic(auto, unfolding(crate::specs::Fault::span_text))]
    fn fmt<W: fmt::Write>(&self, f: &mut fmt::Formatter<W>) -> fmt::Result {
        let (line, column) = (self.line, self.column);
        write!(f, "line {line} column {column}")
    }
}
