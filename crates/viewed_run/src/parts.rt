// The parts of a view.
ghost use Rattle.std.specs.Prelude.{◌≡◌, ◌≤◌, ◌++◌, ◌∷◌, [], length, map, take, IfOk, OnOk};
ghost use Rattle.proto_core.specs.Parties.{from_previous, from_next};
ghost use Rattle.proto_core.specs.Strand.{Mail};
ghost use Rattle.protocol_model.specs.Arrivals.{arrivals};
ghost use Rattle.program_views.specs.Views.{received};
ghost use Rattle.viewed_run.specs.CodeViews.{shown_in};
ghost use Rattle.miner_core.specs.Views.{notice_seen};

use miner_core::Notice;
use program_views::arrivals;
use proto_core::{Link, Messages, Number};
use sc_text::Elements;
use std::alloc::{AllocError, Global};
use vector_ops::elements;
use view_text::Received;

/// So many of these words, from the front. Where there are fewer, they are not given.
pub(crate) fn front(alloc: Global, words: &[u64], count: u64) -> Result<Vec<u64>, AllocError>
    ensures enough { IfOk result (λ _. count ≤ length words.now) }
    ensures front { IfOk result (λ front. front.items ≡ take count words.now) }
{
    if count > words.len() as u64 {
        return Err(AllocError);
    }
    Vec::from_slice(alloc, &words[..count as usize])
}

/// The messages that come to a miner by an order of deliveries, of those that its previous miner and its next one have sent to it.
pub(crate) fn received(
    alloc: Global,
    miner: Number,
    previous: &Messages,
    next: &Messages,
    order: &[Link],
) -> Result<Vec<Received>, AllocError>
    ensures { IfOk result (λ got. (mail : Mail) → mail (from_previous miner) ≡ previous.now → mail (from_next miner) ≡ next.now
        → got.items ≡ map received (arrivals miner mail order.now)) }
{
    let messages = arrivals(alloc, miner, previous, next, order)?;
    let got = program_views::received(alloc, messages)?;
    Ok(got)
}

/// What a notice shows, if it tells of an opening, as one more.
#[tactic(auto, using(crate::proofs::Pieces::told_type))]
fn push_opening(
    alloc: Global,
    opened: &mut Vec<Elements>,
    notice: &Notice,
) -> Result<(), AllocError>
    ensures { OnOk result (opened.new.items ≡ opened.old.items ++ shown_in (notice_seen notice.now ∷ [])) }
{
    match notice {
        Notice::Shown { shape, words } => {
            let shown = elements(alloc, shape.element, words)?;
            opened.push(shown)?;
            Ok(())
        }
        Notice::Published {
            name: _,
            shape: _,
            words: _,
        } => Ok(()),
        Notice::Handed {
            name: _,
            shape: _,
            count: _,
            words: _,
        } => Ok(()),
    }
}

/// What was opened, opening by opening, by what a miner has told.
pub(crate) fn openings(alloc: Global, notices: &[Notice]) -> Result<Vec<Elements>, AllocError>
    ensures { IfOk result (λ opened. opened.items ≡ shown_in (map notice_seen notices.now)) }
{
    let mut opened = Vec::new(alloc);
    for notice in notices {
        push_opening(alloc, &mut opened, notice)?;
    }
    Ok(opened)
}
