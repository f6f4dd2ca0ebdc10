// The shares of what is handed over in a run.
ghost use Rattle.std.specs.Prelude.{◌≡◌, ◌++◌, ◌<◌, [], length, IfOk, OnOk};
ghost use Rattle.proto_core.specs.declared.party.Number.TheVariants.{One, Two, Three};
ghost use Rattle.gates.specs.Clear.{value};
ghost use Rattle.gates.specs.Counts.{made_by};
ghost use Rattle.input_share.specs.Dealing.{need_of};
ghost use Rattle.joint_run.specs.Three.{values_of};
ghost use Rattle.handed_shares.specs.Handed.{all_of};
ghost use Rattle.client_model.specs.Given.{given_by, given_from};
ghost use Rattle.view_model.specs.TapeMaps.{CanRun};
ghost use Rattle.client_view.specs.Views.{given_in};

use client_text::Given;
use gates::Gate;
use joint_run::{SharedValues, Tapes as MinersTapes, joint_run};
use std::alloc::{AllocError, Global};
use tape_file::Tapes;
use tape_twin::{dealt_values, memory_wanting};
use value_file::Inputs;

/// How many values a gate makes.
fn made_by(gate: &Gate) -> u64
    ensures { result ≡ made_by gate.now }
{
    match gate {
        Gate::Split { .. } => 2,
        _ => 1,
    }
}

/// Each miner's share of the value of a number.
fn shares_at(alloc: Global, shares: &SharedValues, number: u64) -> Result<Given, AllocError>
    ensures { IfOk result (λ given. given ≡ record {
      first = value (values_of shares.now One) number;
      second = value (values_of shares.now Two) number;
      third = value (values_of shares.now Three) number;
    }) }
{
    let first = shares.first.value(number).to_vec(alloc)?;
    let second = shares.second.value(number).to_vec(alloc)?;
    let third = shares.third.value(number).to_vec(alloc)?;
    Ok(Given {
        first,
        second,
        third,
    })
}

/// The shares of what a gate hands over, after those that are there. The value that it makes has the next number.
fn push_given(
    alloc: Global,
    given: &mut Vec<Given>,
    gate: &Gate,
    next: u64,
    shares: &SharedValues,
) -> Result<(), AllocError>
    ensures { OnOk result (given.new.items ≡ given.old.items ++ given_by gate.now (all_of next) next (values_of shares.now)) }
{
    match gate {
        Gate::Result { .. } => {
            given.push(shares_at(alloc, shares, next)?)?;
            Ok(())
        }
        _ => Ok(()),
    }
}

/// The shares of what these gates hand over.
fn given_from(
    alloc: Global,
    gates: &[Gate],
    shares: &SharedValues,
) -> Result<Vec<Given>, AllocError>
    ensures { IfOk result (λ given. given.items ≡ given_from all_of 0 (values_of shares.now) gates.now) }
{
    let mut given = Vec::new(alloc);
    let mut next = 0;
    for place in 0..gates.len() {
        let gate = &gates[place];
        push_given(alloc, &mut given, gate, next, shares)?;
        next += made_by(gate);
    }
    Ok(given)
}

/// The shares that the client is given of what these gates hand over, which run on these inputs and tapes.
pub(crate) fn given_in(
    alloc: Global,
    inputs: &Inputs,
    gates: &[Gate],
    tapes: &Tapes,
) -> Result<Vec<Given>, AllocError>
    requires can { CanRun inputs.now gates.now tapes.now }
    requires none { length tapes.now.dealer < need_of inputs.now → gates.now ≡ [] }
    ensures { IfOk result (λ given. given.items ≡ given_in inputs.now gates.now tapes.now) }
{
    let Some(dealt) = dealt_values(alloc, inputs, tapes.dealer())? else {
        return Ok(Vec::new(alloc));
    };
    let own = MinersTapes {
        first: tapes.miner1(),
        second: tapes.miner2(),
        third: tapes.miner3(),
    };
    match joint_run(alloc, gates, &dealt, own) {
        Ok(run) => given_from(alloc, gates, &run.shares),
        Err(refused) => Err(memory_wanting(refused)),
    }
}
