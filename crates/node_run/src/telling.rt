// What a miner tells, as the lines of its text.
ghost use Rattle.std.specs.Prelude.{◌≡◌, map, IfOk};
ghost use Rattle.miner_core.specs.Views.{notice_seen};
ghost use Rattle.miner_text.specs.Lines.{text_of};
ghost use Rattle.node_run.specs.Told.{line_told, lines_told};

use miner_core::Notice;
use miner_text::{MinerLine, ResultShare};
use sc_text::{End, Event};
use std::alloc::{AllocError, Global};
use vector_ops::elements;

/// The line of what a miner tells: an opened value, a public one, or its own share of a private one.
#[tactic(auto, using(code_runs::proofs::Types::same_type))]
fn line_told(alloc: Global, notice: &Notice) -> Result<MinerLine, AllocError>
    ensures { IfOk result (λ line. line ≡ line_told (notice_seen notice.now)) }
{
    match notice {
        Notice::Shown { shape, words } => {
            let shown = elements(alloc, shape.element, words)?;
            Ok(MinerLine::Told(Event::Open(shown)))
        }
        Notice::Published { name, shape, words } => {
            let name = name.copy(alloc)?;
            let given = elements(alloc, shape.element, words)?;
            Ok(MinerLine::Told(Event::Publish(name, given)))
        }
        Notice::Handed {
            name,
            shape,
            count,
            words,
        } => {
            let name = name.copy(alloc)?;
            let words = Vec::from_slice(alloc, words)?;
            let share = ResultShare::new(name, shape.element, *count, words);
            Ok(MinerLine::Share(share))
        }
    }
}

/// The text of a miner's run that told this and ended so.
#[tactic(auto, unfolding(miner_text::specs::Lines::text_of, miner_text::specs::Lines::line_text))]
pub fn told_text(alloc: Global, notices: &[Notice], end: End) -> Result<Vec<u8>, AllocError>
    ensures { IfOk result (λ text. text.items ≡ text_of (lines_told (map notice_seen notices.now) end)) }
{
    let mut text = String::new(alloc);
    for notice in notices {
        let line = line_told(alloc, notice)?;
        write!(text, "{line}")?;
    }
    write!(text, "{end}")?;
    Ok(text.into_bytes())
}
