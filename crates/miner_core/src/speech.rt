// What a step tells the client.
ghost use Rattle.std.specs.Prelude.{◌≡◌, ℕ, List, IfOk, option_map};
ghost use Rattle.bytecode.specs.Raw.{RawCode};
ghost use Rattle.verified_code.specs.InMemory.{step_in};
ghost use Rattle.own_code.specs.Places.{told_by};
ghost use Rattle.code_machine.specs.Views.{machine_seen};
ghost use Rattle.miner_core.specs.TurnViews.{speech_seen};

use code_machine::{Machine, name_in};
use program_trees::Shape;
use sc_text::Name;
use std::alloc::{AllocError, Global};
use value_steps::Value;
use verified_code::Step;

/// What a step tells the client, where it makes an event.
pub enum Speech {
    /// It tells nothing.
    Nothing,
    /// The words that it has opened, of a value of this shape.
    Opens(Shape),
    /// A value, under a name.
    Gives(Name, Value),
}

// Written out, so that an early exit calls this once.
impl Drop for Speech {
    fn drop(self) {
        match self {
            Speech::Nothing | Speech::Opens(_) | Speech::Gives(_, _) => {}
        }
    }
}

/// What the step tells that comes next of a machine, as it was read off the code.
pub fn speech_of(
    alloc: Global,
    coming: Option<Step<'_>>,
    machine: &Machine,
) -> Result<Speech, AllocError>
    ensures { IfOk result (λ speech. (code : RawCode) (opened last : List ℕ) → speech_seen speech opened last
        ≡ told_by (option_map step_in coming.entry) (machine_seen code machine.now) opened last) }
{
    match coming {
        Some(Step::Declassify { source, .. }) => Ok(Speech::Opens(machine.shape_in(source))),
        Some(Step::Publish { text, source }) => {
            let name = name_in(alloc, text)?;
            Ok(Speech::Gives(name, machine.value_in(alloc, source)?))
        }
        _ => Ok(Speech::Nothing),
    }
}
