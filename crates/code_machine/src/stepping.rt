// One step of a machine.
ghost use Rattle.std.specs.Prelude.{◌≡◌, IfErr, length};
ghost use Rattle.std.specs.List.{slice_get};
ghost use Rattle.bytecode.specs.InMemory.{raw_code};
ghost use Rattle.verified_code.specs.InMemory as in_memory;
ghost use Rattle.verified_code.specs.Settled.{settled};
ghost use Rattle.value_steps.specs.Steps.{Does};
ghost use Rattle.value_steps.specs.Views.{stage_seen, world_seen};
ghost use Rattle.code_machine.specs.Standing.{IsComing, Stands};
ghost use Rattle.code_machine.specs.Views.{machine_seen, stepped};

use crate::machine::Machine;
use crate::plan::change_of;
use bytecode::Code;
use sc_text::Ending;
use std::alloc::Global;
use value_steps::{Halt, Stage, World};
use verified_code::{Step, Verified};

/// How many steps a function has; none where it isn't there.
fn count_of(code: &Code, function: usize) -> usize
    ensures { result ≡ length (in_memory.steps_of (slice_get (settled (raw_code code.now)) function)) }
{
    match code.functions.get(function) {
        Some(own) => own.body.len(),
        None => 0,
    }
}

/// The step that comes next, read off the code, if it is there. What it names is there, too.
pub fn coming_step<'c>(code: &'c Verified, machine: &Machine) -> Option<Step<'c>>
    requires { Stands code.now machine.now }
    ensures { IsComing code.now machine.now result }
{
    if machine.place < count_of(code.code(), machine.function) {
        code.step(machine.function, machine.place)
    } else {
        None
    }
}

/// Does the step that comes next, which was read off the code, in this world. It stops where `step` does, and leaves the machine as `step`
/// leaves it.
pub fn take_step(
    alloc: Global,
    world: &World<'_>,
    code: &Verified,
    machine: &mut Machine,
    stage: &mut Stage<'_>,
    coming: Option<Step<'_>>,
) -> Result<(), Halt>
    requires stands { Stands code.now machine.old }
    requires comes { IsComing code.now machine.old coming }
    ensures step { Does (λ _. machine_seen code.now machine.new) (stepped (world_seen world.now) code.now (machine_seen code.now machine.old))
        (stage_seen stage.old) result (stage_seen stage.new) }
    ensures kept { IfErr result (λ _. machine_seen code.now machine.new ≡ machine_seen code.now machine.old) }
    ensures stands { Stands code.now machine.new }
{
    let Some(step) = coming else {
        return Err(Halt::Ended(Ending::Done));
    };
    let change = change_of(alloc, world, code, machine, stage, step)?;
    change.make(machine)?;
    Ok(())
}

/// Does the next step of the code, in this world. The step stops where the run ends, by itself or by a trap, where an opened value
/// wants more answers than are left, and where memory runs short; then the machine is as it was, and may do the step again.
pub fn step(
    alloc: Global,
    world: &World<'_>,
    code: &Verified,
    machine: &mut Machine,
    stage: &mut Stage<'_>,
) -> Result<(), Halt>
    requires { Stands code.now machine.old }
    ensures step { Does (λ _. machine_seen code.now machine.new) (stepped (world_seen world.now) code.now (machine_seen code.now machine.old))
        (stage_seen stage.old) result (stage_seen stage.new) }
    ensures kept { IfErr result (λ _. machine_seen code.now machine.new ≡ machine_seen code.now machine.old) }
    ensures stands { Stands code.now machine.new }
{
    let coming = coming_step(code, machine);
    take_step(alloc, world, code, machine, stage, coming)
}
