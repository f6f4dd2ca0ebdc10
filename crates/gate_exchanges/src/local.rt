// Gates that send nothing.
ghost use Rattle.std.specs.Prelude.{◌≡◌, IfOk};
ghost use Rattle.shared_gates.specs.LocalGates.{const_share, local_share};

use gates::{Gate, Values, Words};
use proto_core::Number;
use std::alloc::{AllocError, Global};

/// A miner's share of words that everybody knows: the first miner has them, the others zeros.
fn const_share(alloc: Global, miner: Number, list: &Words) -> Result<Words, AllocError>
    ensures { IfOk result (λ words. words ≡ const_share miner list.now) }
{
    match miner {
        Number::One => list.copy(alloc),
        Number::Two | Number::Three => {
            let zeros = list.as_slice().iter().map(|_x| 0u64).collect(alloc)?;
            Ok(Words::new(zeros))
        }
    }
}

/// The same words again.
fn copied(alloc: Global, words: &[u64]) -> Result<Words, AllocError>
    ensures { IfOk result (λ copy. copy ≡ words.now) }
{
    let mut copy = Vec::new(alloc);
    copy.extend_from_slice(words)?;
    Ok(Words::new(copy))
}

/// What a miner makes of its own shares in a gate that sends nothing, and of what it was dealt.
pub fn local_share(
    alloc: Global,
    miner: Number,
    dealt: &Values,
    own: &Values,
    gate: &Gate,
) -> Result<Words, AllocError>
    ensures { IfOk result (λ words. words ≡ local_share miner dealt.now own.now gate.now) }
{
    match gate {
        Gate::Const { list } => const_share(alloc, miner, list),
        Gate::Not { operand } => match miner {
            Number::One => gate.clear_value(alloc, dealt, own),
            Number::Two | Number::Three => copied(alloc, own.value(*operand)),
        },
        _ => gate.clear_value(alloc, dealt, own),
    }
}
