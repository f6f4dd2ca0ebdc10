/// Why no tree begins with the tokens up to one.
#[derive(Clone, Copy)]
pub enum ParseProblem {
    /// No tree of any height begins so.
    Unexpected,
    /// Only trees that are too high begin so.
    TooHigh,
}
