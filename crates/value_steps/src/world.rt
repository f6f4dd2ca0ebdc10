// What stays the same in a run.
ghost use Rattle.std.specs.Prelude.{◌≤◌, length};

use program_trees::Shape;
use sc_text::Name;

/// The lengths of the miners' tapes, in words.
#[derive(Clone, Copy)]
pub struct Lengths {
    pub first: u64,
    pub second: u64,
    pub third: u64,
}

/// What an opened value is: the value itself, or the next of a list of answers.
#[derive(Clone, Copy)]
pub enum Source {
    Clear,
    Answers,
}

/// An input of a run: its elements are words, a truth value 1 or 0; it has at most 1,048,576.
pub struct GivenInput {
    pub name: Name,
    pub private: bool,
    pub shape: Shape,
    pub words: Vec<u64>,
    ghost bounded: { length words.items ≤ 1048576 },
}

// Written out, so that who gives an input up calls this once, and doesn't take the input apart in its place.
impl Drop for GivenInput {
    fn drop(self) {
        match self {
            GivenInput {
                name: _,
                private: _,
                shape: _,
                words: _,
            } => {}
        }
    }
}

/// What stays the same in a run: the lengths of the tapes, the dealer's beside the miners', where opened values come from, and the
/// inputs.
#[derive(Clone, Copy)]
pub struct World<'a> {
    pub dealer: u64,
    pub lengths: Lengths,
    pub source: Source,
    pub inputs: &'a [GivenInput],
}
