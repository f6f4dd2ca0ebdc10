// How a function is called.
ghost use Rattle.std.specs.Prelude.{◌≡◌, ◌≤◌, ◌<◌, [], ◌∷◌, ◌++◌, IfOk, length, map, sum};
ghost use Rattle.std.specs.List.{slice_get};
ghost use Rattle.program_trees.specs.TypedTree.{typed_tree, typed_trees_of};
ghost use Rattle.reached_instances.specs.Domains.{domains};
ghost use Rattle.reached_instances.specs.Views.{setting};
ghost use Rattle.language_model.specs.Evaluation.{array_elements, bound_at, slots_of};
ghost use Rattle.value_steps.specs.Steps.{Does, itself};
ghost use Rattle.value_steps.specs.Views.{value_seen, stage_seen};
ghost use Rattle.clear_eval.specs.inner.Calling.{call_charged};
ghost use Rattle.clear_eval.specs.inner.Views.{functions_around};

use crate::place::StatementContext;
use program_trees::{Slot, TypedExpression};
use reached_instances::{BoundDomain, binding_of, domains};
use sc_text::{Ending, TrapKind};
use std::alloc::{AllocError, Global};
use value_steps::{Halt, Stage, Value, charge, charge_elements};

/// What a call of the function of this number, with these arguments, binds its domain variables to.
pub fn bound_by(
    alloc: Global,
    at: &StatementContext<'_>,
    number: usize,
    list: &Vec<TypedExpression>,
) -> Result<Vec<BoundDomain>, AllocError>
    requires { number < length at.now.here.functions.now }
    ensures { IfOk result (λ b. b.items ≡ bound_at (slice_get (functions_around at.now) number)
        (domains (setting at.now.here) (typed_trees_of (map typed_tree list.now.items)))) }
{
    let domains = domains(alloc, &at.here, list)?;
    binding_of(alloc, &at.here.functions[number], &domains)
}

/// The slots of the function of this number.
pub fn slots_of<'a>(at: &StatementContext<'a>, number: usize) -> &'a [Slot]
    requires { number < length at.now.here.functions.now }
    ensures { result.now ≡ slots_of (slice_get (functions_around at.now) number) }
{
    let functions = at.here.functions;
    &functions[number].slots
}

/// Puts an argument after those before it.
#[inline(never)]
pub fn add_argument(arguments: &mut Vec<Value>, argument: Value) -> Result<(), AllocError>
    ensures { IfOk result (λ _. arguments.new.items ≡ arguments.old.items ++ argument ∷ []) }
{
    arguments.push(argument)?;
    Ok(())
}

// How many elements the arrays among the arguments of a call have together.
fn array_elements(arguments: &[Value]) -> u128
    ensures { result ≡ sum (map array_elements (map value_seen arguments.now)) }
{
    let mut count = 0;
    for argument in arguments {
        count += argument.array_elements() as u128;
    }
    count
}

/// Charges a call, where there is room for so many calls inside one another: 1, and then the elements of its arrays.
pub fn charge_call(
    stage: &mut Stage<'_>,
    depth: usize,
    line: u32,
    arguments: &[Value],
) -> Result<(), Halt>
    ensures step { Does itself (call_charged depth line (map value_seen arguments.now)) (stage_seen stage.old) result (stage_seen stage.new) }
    ensures depth { IfOk result (λ _. 0 < depth) }
    ensures spends { stage.new.left ≤ stage.old.left }
{
    charge(stage, 1)?;
    if depth == 0 {
        return Err(Halt::Ended(Ending::Trap {
            kind: TrapKind::Depth,
            line,
        }));
    }
    charge_elements(stage, array_elements(arguments))
}
