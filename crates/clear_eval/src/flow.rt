// Where a function goes on after a statement.
ghost use Rattle.std.specs.Prelude.{◌≡◌, IfOk, List};
ghost use Rattle.language_model.specs.Evaluation.{result_of};
ghost use Rattle.value_steps.specs.Views.{value_seen};
ghost use Rattle.value_steps.specs.declared.value.Value.{Value as Kept};
ghost use Rattle.clear_eval.specs.inner.Flows.{LeavesLoop};
ghost use Rattle.clear_eval.specs.inner.Views.{flow_seen};

use std::alloc::{AllocError, Global};
use value_steps::Value;

/// Where a function goes on after a statement.
pub enum Flow {
    /// With the next statement.
    Goes,
    /// Back in its caller, with a value.
    Returns(Value),
    /// After the loop.
    Stops,
    /// With the loop's next turn.
    Skips,
}

// Written out, so that an early exit calls this once, and doesn't take the way on apart in its place.
impl Drop for Flow {
    fn drop(self) {
        match self {
            Flow::Goes | Flow::Returns(_) | Flow::Stops | Flow::Skips => {}
        }
    }
}

impl Flow {
    /// What a function gives whose body was left so.
    pub fn into_result(self, alloc: Global) -> Result<Value, AllocError>
        ensures { IfOk result (λ v. (frame : List Kept) → value_seen v ≡ result_of (flow_seen frame self)) }
    {
        match self {
            Flow::Returns(value) => Ok(value),
            Flow::Goes | Flow::Stops | Flow::Skips => Value::unread(alloc),
        }
    }

    /// Where a function goes on after a loop in which a statement left it so; nowhere where the loop goes on.
    pub fn behind_loop(self) -> Option<Flow>
        ensures { (frame : List Kept) → LeavesLoop frame self result }
    {
        match self {
            Flow::Goes | Flow::Skips => None,
            Flow::Stops => Some(Flow::Goes),
            Flow::Returns(value) => Some(Flow::Returns(value)),
        }
    }
}
