// Where the breaks and continues of a loop lead.
ghost use Rattle.std.specs.Prelude.{◌≡◌, ◌+◌, ◌-◌, ◌<◌, ◌≤◌, OnOk, length};
ghost use Rattle.lowered_expressions.specs.Views.{built, piece_seen};
ghost use Rattle.lowering.specs.inner.Pieces.{settled_part, with_piece, with_settled};

use lowered_expressions::{Body, BodyPiece, Step};
use std::alloc::AllocError;

/// One more piece after a body.
pub fn push<'p>(body: &mut Body<'p>, piece: BodyPiece<'p>) -> Result<(), AllocError>
    ensures { OnOk result (built body.new ≡ with_piece (built body.old) (piece_seen piece.entry)) }
{
    body.pieces.push(piece)?;
    Ok(())
}

// Settles the piece at a place.
fn settle_one(body: &mut Body<'_>, place: usize, break_to: usize, continue_to: usize)
    requires { place < length (built body.old).pieces }
    ensures { built body.new ≡ with_settled (built body.old) place 1 break_to continue_to }
{
    match body.pieces[place] {
        BodyPiece::Whole(_) => {}
        BodyPiece::Break => body.set(place, Step::Jump { target: break_to }),
        BodyPiece::Continue => body.set(
            place,
            Step::Jump {
                target: continue_to,
            },
        ),
    }
}

/// Settles the pieces from a place to another: where breaks and continues lead.
pub fn settle(body: &mut Body<'_>, from: usize, to: usize, break_to: usize, continue_to: usize)
    requires order { from ≤ to }
    requires within { to ≤ length (built body.old).pieces }
    ensures { built body.new ≡ with_settled (built body.old) from (to - from) break_to continue_to }
{
    for place in from..to {
        settle_one(body, place, break_to, continue_to);
    }
}
