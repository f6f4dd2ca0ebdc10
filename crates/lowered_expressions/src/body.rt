// The body of a function that is being made.
ghost use Rattle.std.specs.Prelude.{◌≡◌, ◌<◌, OnOk, length};
ghost use Rattle.lowered_expressions.specs.Built.{with_step, with_step_at};
ghost use Rattle.lowered_expressions.specs.Views.{built, step_seen};

use crate::step::{BodyPiece, Step};
use std::alloc::AllocError;

/// The pieces of a function so far.
#[derive(Drop)]
pub struct Body<'p> {
    pub pieces: Vec<BodyPiece<'p>>,
}

impl<'p> Body<'p> {
    /// The place of the next piece.
    pub fn next_place(&self) -> usize
        ensures { result ≡ length (built self.now).pieces }
    {
        self.pieces.len()
    }

    /// One more step. An error comes where memory runs short.
    pub fn push(&mut self, step: Step<'p>) -> Result<(), AllocError>
        ensures { OnOk result (built self.new ≡ with_step (built self.old) (step_seen step.entry)) }
    {
        self.pieces.push(BodyPiece::Whole(step))?;
        Ok(())
    }

    /// This step in the place of the piece that stands there.
    pub fn set(&mut self, place: usize, step: Step<'p>)
        requires { place < length (built self.old).pieces }
        ensures { built self.new ≡ with_step_at (built self.old) place (step_seen step.entry) }
    {
        self.pieces[place] = BodyPiece::Whole(step);
    }
}
