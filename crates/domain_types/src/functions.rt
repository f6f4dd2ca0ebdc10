// The faults of a function whose domain variables are bound.
ghost use Rattle.std.specs.Prelude.{◌≡◌, ◌++◌, IfOk, map};
ghost use Rattle.program_trees.specs.Statements.{statement, statements_of};
ghost use Rattle.program_trees.specs.Programs.{function_tree};
ghost use Rattle.domain_types.specs.Scopes.{nothing_known};
ghost use Rattle.domain_types.specs.StatementTypes.{always_returns, one_returns};
ghost use Rattle.domain_types.specs.FunctionTypes.{with_parameters, parameter_faults, result_faults, way_faults, function_faults};
ghost use Rattle.domain_types.specs.Reached.{function_calls};
ghost use Rattle.domain_types.specs.Views.{setting, calls_seen};
ghost use Rattle.domain_types.specs.inner.LeastFault.{least};

use crate::calls::Found;
use crate::declaring::{is_new, known};
use crate::fault::{TypeFault, TypeProblem};
use crate::least_fault::note_if;
use crate::setting::{Setting, written};
use crate::statements::statements;
use crate::variables::Variables;
use program_trees::{Function, Parameter, ResultType, Statement};
use std::alloc::AllocError;

// Whether a statement always returns.
#[cycle(returns)]
fn always_returns(s: &Statement) -> bool
    ensures { result ≡ always_returns (statement s.now) }
{
    match s {
        Statement::Block(_, list) => one_returns(list),
        Statement::If(_, _, body, Some(otherwise)) => {
            always_returns(body) && always_returns(otherwise)
        }
        Statement::Return(_, _) => true,
        _ => false,
    }
}

// Whether one of the statements always returns.
#[cycle(returns)]
fn one_returns(list: &Vec<Statement>) -> bool
    ensures { result ≡ one_returns (statements_of (map statement list.now.items)) }
{
    let mut returns = false;
    for each in list {
        let this = always_returns(each);
        returns = returns || this;
    }
    returns
}

// Declares the parameters, which belong to the body's block.
#[tactic(auto, using(crate::proofs::Faults::joins))]
fn parameters<'p>(
    least_fault: &mut Option<TypeFault>,
    here: &Setting<'_, 'p>,
    variables: &mut Variables<'p>,
    list: &'p [Parameter],
) -> Result<(), AllocError>
    ensures least_fault { IfOk result (λ _. least_fault.new ≡ least least_fault.old (parameter_faults (setting here.now) variables.old list.now)) }
    ensures variables { IfOk result (λ _. variables.new ≡ with_parameters (setting here.now) list.now variables.old) }
{
    let mut list = list;
    while let Some((parameter, more)) = list.split_first() {
        known(least_fault, here, &parameter.declared.domain);
        is_new(least_fault, variables, &parameter.variable);
        variables.declare(
            parameter.variable.text.as_str(),
            written(here, &parameter.declared),
        )?;
        list = more;
    }
    Ok(())
}

// The domain of a result is known.
fn known_result<'p>(
    least_fault: &mut Option<TypeFault>,
    here: &Setting<'_, 'p>,
    returned: &'p ResultType,
)
    ensures { least_fault.new ≡ least least_fault.old (result_faults (setting here.now) returned.now) }
{
    match returned {
        ResultType::Void => {}
        ResultType::Value(declared) => known(least_fault, here, &declared.domain),
    }
}

// A function with a result returns on every way.
fn returns_on_every_way(least_fault: &mut Option<TypeFault>, function: &Function)
    ensures { least_fault.new ≡ least least_fault.old (way_faults (function_tree function.now) function.now.result) }
{
    match &function.result {
        ResultType::Void => {}
        ResultType::Value(_) => note_if(
            least_fault,
            !one_returns(&function.body.statements),
            function.function.place,
            TypeProblem::MissingReturn,
        ),
    }
}

/// Checks the function that `here` is in, whose domain variables are bound as it says.
#[tactic(auto, using(crate::proofs::Faults::joins))]
pub fn function(found: &mut Found, here: &Setting<'_, '_>) -> Result<(), AllocError>
    ensures least_fault { IfOk result
        (λ _. found.new.least_fault ≡ least found.old.least_fault (function_faults (setting here.now) (function_tree here.now.function.now))) }
    ensures calls { IfOk result (λ _. calls_seen found.new.calls.items ≡
        calls_seen found.old.calls.items ++ function_calls (setting here.now) (function_tree here.now.function.now)) }
{
    let function = here.function;
    known_result(&mut found.least_fault, here, &function.result);
    let mut variables = Variables::new(here.alloc);
    parameters(
        &mut found.least_fault,
        here,
        &mut variables,
        &function.parameters,
    )?;
    statements(found, here, &mut variables, &function.body.statements)?;
    returns_on_every_way(&mut found.least_fault, function);
    Ok(())
}
