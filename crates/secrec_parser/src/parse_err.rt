use expression_parser::ParseProblem;
use sc_text::Span;

/// Why there is no program.
#[derive(Clone, Copy)]
pub enum ParseErr {
    /// Memory ran short.
    Memory,
    /// The tokens are refused for their first fault, which is the token at this place.
    Refused { problem: ParseProblem, place: Span },
}
