// How a miner's part of a run has ended, and its text.
ghost use Rattle.std.specs.Prelude.{◌≡◌, None, IfOk, IfSome, IfNone};
ghost use Rattle.miner_core.specs.Miners.{ForEachStory};
ghost use Rattle.miner_core.specs.Story.{cost_in, node};
ghost use Rattle.node_run.specs.Nodes.{node_text};

use crate::telling::told_text;
use miner_core::Miner;
use proto_core::Party;
use sc_text::{End, Ending};
use std::alloc::{AllocError, Global};

/// How the run has ended: before it began, or as the miner's run.
pub(crate) fn end_of<P: Party>(undealt: Option<Ending>, miner: &Miner<P>, ending: Ending) -> End
    ensures undealt { IfSome undealt (λ how. result ≡ record { how = how; cost = 0 }) }
    ensures ended { IfNone undealt (result.how ≡ ending) }
    ensures cost { IfNone undealt (ForEachStory P.me miner.now (λ s. result.cost ≡ cost_in P.me s)) }
{
    match undealt {
        Some(how) => End { how, cost: 0 },
        None => End {
            how: ending,
            cost: miner.cost(),
        },
    }
}

/// The text of a miner whose run has ended so.
pub(crate) fn text_of<P: Party>(
    alloc: Global,
    miner: &Miner<P>,
    end: End,
) -> Result<Vec<u8>, AllocError>
    ensures { IfOk result (λ text. ForEachStory P.me miner.now (λ s. text.items ≡ node_text (node P.me s).acts end)) }
{
    told_text(alloc, miner.notices(), end)
}
