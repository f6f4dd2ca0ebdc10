// The rule of a call, on the types of its arguments.
ghost use Rattle.std.specs.Prelude.{IfOk, Some, option_map, option_and_then, vec_items};
ghost use Rattle.program_trees.specs.Programs.{function_tree};
ghost use Rattle.domain_types.specs.Types.{of_typed};
ghost use Rattle.declarations.specs.Declarations.{defined, callee};
ghost use Rattle.domain_types.specs.ExpressionTypes.{defined_faults, callee_type, call_faults, call_type};
ghost use Rattle.domain_types.specs.Reached.{call_of};
ghost use Rattle.declarations.specs.Views.{declared};
ghost use Rattle.domain_types.specs.inner.Walks.{Gives};

use crate::built_ins::built_in;
use crate::calls::{Call, Found};
use crate::defined_calls::{defined_call, result_type};
use crate::fault::TypeProblem;
use crate::least_fault::note;
use crate::setting::Setting;
use crate::value_type::{Argument, ExpressionType};
use declarations::Called;
use program_trees::Function;
use sc_text::Span;
use std::alloc::AllocError;

// A call of the function of the program with this number; the call is kept.
#[tactic(auto, using(crate::proofs::Calling::calling))]
fn call_defined<'p>(
    found: &mut Found,
    here: &Setting<'_, 'p>,
    place: Span,
    number: usize,
    function: &'p Function,
    arguments: &Option<Vec<Argument>>,
) -> Result<Option<ExpressionType>, AllocError>
    ensures { IfOk result (λ t. Gives
        (option_and_then (callee_type (declared here.now.declarations.now) place (defined number (function_tree function.now)))
        (option_map vec_items arguments.now))
        t found.old found.new
        (of_typed (option_map vec_items arguments.now) (defined_faults (declared here.now.declarations.now) place (function_tree function.now)))
        (call_of (declared here.now.declarations.now) place (Some (defined number (function_tree function.now))) (option_map vec_items arguments.now))) }
{
    let Some(arguments) = arguments else {
        found.calls.push(Call {
            function: number,
            binding: None,
        })?;
        return Ok(None);
    };
    let binding = defined_call(&mut found.least_fault, here, place, function, arguments)?;
    let given = match &binding {
        None => None,
        Some(domains) => {
            let callee = Setting {
                alloc: here.alloc,
                declarations: here.declarations,
                function,
                binding: domains,
            };
            result_type(&callee, &function.result)
        }
    };
    found.calls.push(Call {
        function: number,
        binding,
    })?;
    Ok(given)
}

/// The rule of a call; a call of a function of the program is kept.
#[tactic(auto, unfolding(crate::specs::ExpressionTypes::call_faults, crate::specs::ExpressionTypes::call_type))]
pub fn call<'p>(
    found: &mut Found,
    here: &Setting<'_, 'p>,
    place: Span,
    name: &'p str,
    arguments: &Option<Vec<Argument>>,
) -> Result<Option<ExpressionType>, AllocError>
    ensures { IfOk result (λ t. Gives
        (call_type (declared here.now.declarations.now) place (callee (declared here.now.declarations.now) name.now) (option_map vec_items arguments.now))
        t found.old found.new
        (call_faults (declared here.now.declarations.now) place (callee (declared here.now.declarations.now) name.now) (option_map vec_items arguments.now))
        (call_of (declared here.now.declarations.now) place (callee (declared here.now.declarations.now) name.now) (option_map vec_items arguments.now))) }
{
    match here.declarations.callee(name) {
        None => {
            note(&mut found.least_fault, place, TypeProblem::UnknownName);
            Ok(None)
        }
        Some(Called::BuiltIn(function)) => match arguments {
            None => Ok(None),
            Some(arguments) => match built_in(&mut found.least_fault, place, function, arguments) {
                None => Ok(None),
                Some(given) => Ok(Some(ExpressionType::Value(given))),
            },
        },
        Some(Called::Defined(number, function)) => {
            call_defined(found, here, place, number, function, arguments)
        }
    }
}
