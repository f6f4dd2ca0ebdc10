// Conditions and assertions.
ghost use Rattle.std.specs.Prelude.{◌≡◌, ◌++◌, IfOk};
ghost use Rattle.program_trees.specs.Tree.{expression};
ghost use Rattle.domain_types.specs.StatementTypes.{test_faults};
ghost use Rattle.domain_types.specs.Reached.{calls_of};
ghost use Rattle.domain_types.specs.Views.{setting, calls_seen};
ghost use Rattle.domain_types.specs.inner.LeastFault.{least};

use crate::calls::Found;
use crate::expressions::value;
use crate::fault::TypeProblem;
use crate::rules::scalar;
use crate::setting::Setting;
use crate::variables::Variables;
use program_trees::{DataType, Expression};
use std::alloc::AllocError;

/// A condition or an assertion: a public truth value is wanted, where a private one is this problem.
#[tactic(auto, using(crate::proofs::Faults::joins))]
pub fn test<'p>(
    found: &mut Found,
    here: &Setting<'_, 'p>,
    variables: &Variables<'p>,
    private_one: TypeProblem,
    e: &'p Expression,
) -> Result<(), AllocError>
    ensures least_fault { IfOk result
        (λ _. found.new.least_fault ≡ least found.old.least_fault (test_faults (setting here.now) variables.now private_one (expression e.now))) }
    ensures calls { IfOk result (λ _. calls_seen found.new.calls.items ≡
        calls_seen found.old.calls.items ++ calls_of (setting here.now) variables.now (expression e.now)) }
{
    if let Some(given) = value(found, here, variables, e)? {
        let _ = scalar(
            &mut found.least_fault,
            DataType::Bool,
            private_one,
            e.place(),
            given,
        );
    }
    Ok(())
}
