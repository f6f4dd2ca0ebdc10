// Values that come from the program's text.
ghost use Rattle.std.specs.Prelude.{◌≡◌, [], ◌∷◌, false, IfOk};
ghost use Rattle.program_trees.specs.declared.expression.DataType.TheVariants.{Int64};
ghost use Rattle.program_trees.specs.Shapes.{shape_of};
ghost use Rattle.language_model.specs.Evaluation.{truth_value, decides};
ghost use Rattle.language_model.specs.Values.{plain};
ghost use Rattle.value_steps.specs.Views.{value_seen};

use program_trees::{Connective, DataType, Shape};
use std::alloc::{AllocError, Global};
use value_steps::{Secrecy, Value};

/// A public truth value.
pub fn truth_value(alloc: Global, truth: bool) -> Result<Value, AllocError>
    ensures { IfOk result (λ v. value_seen v ≡ truth_value truth) }
{
    Ok(Value {
        secrecy: Secrecy::Plain,
        shape: Shape::scalar(DataType::Bool),
        words: vec![in alloc; u64::from(truth)]?,
    })
}

/// 0 as a public number with a sign.
pub fn zero_with_sign(alloc: Global) -> Result<Value, AllocError>
    ensures { IfOk result (λ v. value_seen v ≡ plain (shape_of Int64 false) (0 ∷ [])) }
{
    Ok(Value {
        secrecy: Secrecy::Plain,
        shape: Shape::scalar(DataType::Int64),
        words: vec![in alloc; 0]?,
    })
}

/// Whether a left operand decides alone.
pub fn decides(connective: Connective, truth: bool) -> bool
    ensures { result ≡ decides connective truth }
{
    match connective {
        Connective::AndAlso => !truth,
        Connective::OrElse => truth,
    }
}
