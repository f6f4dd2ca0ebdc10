// A miner, made of its share file.
ghost use Rattle.std.specs.Prelude.{◌≡◌, IfOk, length, map};
ghost use Rattle.input_share.specs.Reading.{AreWritable};
ghost use Rattle.input_share.specs.Shapes.{shapes_of};
ghost use Rattle.verified_code.specs.Settled.{settled};
ghost use Rattle.value_steps.specs.Views.{given_seen};
ghost use Rattle.clear_eval.specs.Offers.{offered_with, part_given};
ghost use Rattle.language_model.specs.Effects.{Answers};
ghost use Rattle.language_model.specs.Reports.{world_of};
ghost use Rattle.miner_core.specs.declared.kept.Kept.TheVariants as kept;
ghost use Rattle.miner_core.specs.Drawing.{Draws};
ghost use Rattle.miner_core.specs.Miners.{held};
ghost use Rattle.miner_core.specs.Views.{task_code, task_world};
ghost use Rattle.view_model.specs.Dealing.{private_shares};
ghost use Rattle.node_run.specs.Made.{IsMadeOf, run_code, share_world, undealt, undealt_in};

use crate::idle::idle_code;
use clear_eval::{dealing, parts_given};
use gates::Values;
use input_share::{ShareFile, shape_part};
use miner_core::{Lost, Miner, Task};
use outside::TapeSource;
use proto_core::Party;
use sc_text::{Ending, TapeOwner};
use std::alloc::{AllocError, Global};
use value_steps::{GivenInput, Lengths};
use verified_code::Verified;
use view_model::own_shares;

/// A miner to which nothing was delivered, at its first wait. Where the dealer's tape is too short for the inputs, `undealt` is how the run has
/// ended before it began, and the miner does nothing and draws nothing.
pub struct Made<P: Party> {
    pub miner: Miner<P>,
    pub undealt: Option<Ending>,
}

// What everybody knows of the inputs, as a run takes it.
#[tactic(auto, using(crate::proofs::Shapes::writable_shapes))]
fn inputs_given(alloc: Global, share: &ShareFile) -> Result<Vec<GivenInput>, AllocError>
    requires { AreWritable share.now.entries }
    ensures { IfOk result (λ given. map given_seen given.items ≡ map part_given (shapes_of share.now.entries)) }
{
    let part = shape_part(alloc, share)?;
    parts_given(alloc, &part)
}

// What is to be run with these inputs, and tapes of these lengths.
fn task(code: Verified, inputs: Vec<GivenInput>, lens: [u64; 4]) -> Task
    ensures code { task_code result ≡ settled code }
    ensures world { task_world result ≡ world_of Answers (offered_with (map given_seen inputs.items) lens) }
{
    let [dealer, first, second, third] = lens;
    Task {
        code,
        dealer,
        lengths: Lengths {
            first,
            second,
            third,
        },
        inputs,
    }
}

// How a run has ended before it began, since the dealer has too few words.
fn undealt_end(inputs: &[GivenInput], lens: [u64; 4]) -> Option<Ending>
    requires { length lens ≡ 4 }
    ensures { result ≡ undealt_in (world_of Answers (offered_with (map given_seen inputs.now) lens)) }
{
    let need = dealing(inputs);
    let have = lens[0];
    if need <= have as u128 {
        return None;
    }
    let owner = TapeOwner::Dealer;
    Some(Ending::Tape { owner, need, have })
}

// The code that is run: one that does nothing, where the run has ended before it began.
fn run_code(alloc: Global, undealt: Option<Ending>, code: Verified) -> Result<Verified, AllocError>
    ensures { IfOk result (λ run. run ≡ run_code undealt code) }
{
    match undealt {
        None => Ok(code),
        Some(_) => idle_code(alloc),
    }
}

// What a miner is made of: what it runs, its shares of the inputs, and how the run has ended where it ends before it begins.
struct Prepared {
    task: Task,
    dealt: Values,
    undealt: Option<Ending>,
}

// What the miner of a share file is made of.
fn prepare(alloc: Global, code: Verified, share: &ShareFile) -> Result<Prepared, AllocError>
    requires { AreWritable share.now.entries }
    ensures world { IfOk result (λ prepared. task_world prepared.task ≡ share_world share.now) }
    ensures code { IfOk result (λ prepared. task_code prepared.task ≡ settled (run_code (undealt share.now) code)) }
    ensures dealt { IfOk result (λ prepared. prepared.dealt ≡ private_shares share.now.entries) }
    ensures undealt { IfOk result (λ prepared. prepared.undealt ≡ undealt share.now) }
{
    let dealt = own_shares(alloc, share.entries())?;
    let inputs = inputs_given(alloc, share)?;
    let undealt = undealt_end(&inputs, share.lens());
    let code = run_code(alloc, undealt, code)?;
    let task = task(code, inputs, share.lens());
    Ok(Prepared {
        task,
        dealt,
        undealt,
    })
}

/// The miner of a share file, with this code and the budget of the run. Its tape is what the source has left for it; of that it has drawn what
/// the run up to its first wait draws.
///
/// `TapeFault` comes only where the source counted a fault.
pub fn miner<P: Party, T: TapeSource>(
    alloc: Global,
    code: Verified,
    share: &ShareFile,
    budget: u64,
    tapes: &mut T,
) -> Result<Made<P>, Lost>
    requires { AreWritable share.now.entries }
    ensures miner { IfOk result (λ made. IsMadeOf P.me code share.now budget (T.state tapes.old) (T.state tapes.new) (held made.miner)) }
    ensures past { IfOk result (λ made. made.miner.past ≡ kept.All) }
    ensures undealt { IfOk result (λ made. made.undealt ≡ undealt share.now) }
    ensures draws { Draws P.me (T.state tapes.old) (T.state tapes.new) result }
{
    let Prepared {
        task,
        dealt,
        undealt,
    } = prepare(alloc, code, share)?;
    let miner = Miner::new(alloc, task, dealt, budget, tapes)?;
    Ok(Made { miner, undealt })
}
