// What a call names.
ghost use Rattle.std.specs.Prelude.{◌≡◌, IfOk, map};
ghost use Rattle.std.specs.List.{slice_get};
ghost use Rattle.program_trees.specs.TypedTree.{typed_tree, typed_trees_of};
ghost use Rattle.reached_instances.specs.Domains.{domains};
ghost use Rattle.reached_instances.specs.Views.{setting};
ghost use Rattle.language_model.specs.Evaluation.{bound_at, slots_of};
ghost use Rattle.code_model.specs.Expressions.{result_at};
ghost use Rattle.lowered_expressions.specs.Views.{numbers_of};
ghost use Rattle.lowered_expressions.specs.inner.Notes.{arguments_notes};

use crate::around::Around;
use crate::notes::{Note, noted_domains};
use program_trees::{Returned, Slot, TypedExpression};
use reached_instances::{BoundDomain, Instance, Setting, binding_of};
use std::alloc::{AllocError, Global};

/// A call: the line of its construct, the number of its function, and the register of what it gives, if there is one.
#[derive(Clone, Copy)]
pub struct CallHead {
    pub line: u32,
    pub function: usize,
    pub to: Option<usize>,
}

/// What a call of a function with these arguments binds its domain variables to, by the arguments' notes.
pub fn bound_at(
    alloc: Global,
    here: &Setting<'_>,
    function: usize,
    notes: &[Note],
    list: &Vec<TypedExpression>,
) -> Result<Vec<BoundDomain>, AllocError>
    requires { notes.now ≡ arguments_notes (setting here.now) (typed_trees_of (map typed_tree list.now.items)) }
    ensures { IfOk result (λ b. b.items ≡ bound_at (slice_get (setting here.now).functions function)
        (domains (setting here.now) (typed_trees_of (map typed_tree list.now.items)))) }
{
    let Some(callee) = here.functions.get(function) else {
        return Ok(Vec::new(alloc));
    };
    let domains = noted_domains(alloc, notes, list.len())?;
    binding_of(alloc, callee, &domains)
}

/// The slots of a function.
pub fn slots_of<'a>(here: &Setting<'a>, function: usize) -> &'a [Slot]
    ensures { result.now ≡ slots_of (slice_get (setting here.now).functions function) }
{
    match here.functions.get(function) {
        None => &[],
        Some(callee) => &callee.slots,
    }
}

/// The register of what a call gives, where the function gives something.
pub fn given_to(here: &Setting<'_>, function: usize, to: usize) -> Option<usize>
    ensures { result ≡ result_at (slice_get (setting here.now).functions function) to }
{
    match here.functions.get(function)?.given {
        Returned::Nothing => None,
        Returned::Value(_) => Some(to),
    }
}

/// The number of the instance that a function is under a binding; how many there are where it is none of them.
pub fn number_of(around: &Around<'_>, function: usize, binding: Vec<BoundDomain>) -> usize
    ensures { result ≡ numbers_of around.now function binding.items }
{
    let instance = Instance { function, binding };
    match around.instances.number(&instance) {
        Some(number) => number,
        None => around.instances.as_slice().len(),
    }
}
