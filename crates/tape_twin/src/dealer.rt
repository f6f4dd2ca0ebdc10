// The dealer's words that a view is made of.
ghost use Rattle.std.specs.Prelude.{◌≡◌, ◌≤◌, length, IfOk};
ghost use Rattle.proto_core.specs.declared.party.Number.{Number as NumberValue};
ghost use Rattle.proto_core.specs.declared.party.Number.TheVariants.{Three};
ghost use Rattle.input_share.specs.Dealing.{need_of};
ghost use Rattle.joint_run.specs.Three.{values_of};
ghost use Rattle.view_model.specs.Dealing.{dealt_to, seen_dealer};
ghost use Rattle.tape_twin.specs.Pairs.{pairs};

use gates::Values;
use input_share::need;
use joint_run::SharedValues;
use proto_core::Number;
use std::alloc::{AllocError, Global};
use value_file::Inputs;

/// Of each value the third miner's share and then the second one's, one value after the other.
fn pairs(alloc: Global, third: &Values, second: &Values) -> Result<Vec<u64>, AllocError>
    requires { length second.now ≡ length third.now }
    ensures { IfOk result (λ words. words.items ≡ pairs third.now second.now) }
{
    let mut words = Vec::new(alloc);
    for k in 0..third.len() as u64 {
        words.extend_from_slice(third.value(k))?;
        words.extend_from_slice(second.value(k))?;
    }
    Ok(words)
}

/// The same words.
fn copied(alloc: Global, words: &[u64]) -> Result<Vec<u64>, AllocError>
    ensures { IfOk result (λ copy. copy.items ≡ words.now) }
{
    words.to_vec(alloc)
}

/// The dealer's words of the third miner's view: its own share where the first masks of a private input stood.
fn third_view(
    alloc: Global,
    inputs: &Inputs,
    dealt: &SharedValues,
    dealer: &[u64],
) -> Result<Vec<u64>, AllocError>
    requires enough { need_of inputs.now ≤ length dealer.now }
    requires dealt { (i : NumberValue) → values_of dealt.now i ≡ dealt_to inputs.now dealer.now i }
    ensures { IfOk result (λ words. words.items ≡ seen_dealer Three inputs.now dealer.now) }
{
    let mut words = pairs(alloc, &dealt.third, &dealt.second)?;
    let behind = need(inputs.entries()) as usize;
    words.extend_from_slice(&dealer[behind..])?;
    Ok(words)
}

/// The dealer's words that a miner's view is made of, by what these words deal of the inputs: for the third miner its own share where
/// the first masks of a private input stood, for the others the words as they are. It is its own way back.
pub fn seen_dealer(
    alloc: Global,
    miner: Number,
    inputs: &Inputs,
    dealt: &SharedValues,
    dealer: &[u64],
) -> Result<Vec<u64>, AllocError>
    requires enough { need_of inputs.now ≤ length dealer.now }
    requires dealt { (i : NumberValue) → values_of dealt.now i ≡ dealt_to inputs.now dealer.now i }
    ensures { IfOk result (λ words. words.items ≡ seen_dealer miner inputs.now dealer.now) }
{
    match miner {
        Number::One => copied(alloc, dealer),
        Number::Two => copied(alloc, dealer),
        Number::Three => third_view(alloc, inputs, dealt, dealer),
    }
}
