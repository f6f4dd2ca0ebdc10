// Operands that may have to be classified.
ghost use Rattle.std.specs.Prelude.{◌≡◌, IfOk, OnOk};
ghost use Rattle.code_model.specs.Expressions.{classifying, picked};
ghost use Rattle.lowered_expressions.specs.Built.{with_steps};
ghost use Rattle.lowered_expressions.specs.Views.{built};

use crate::body::Body;
use crate::step::Step;
use std::alloc::AllocError;

/// The register of an operand's value, that of its classification, and whether it lacks it.
#[derive(Clone, Copy)]
pub struct WantedOperand {
    pub lacks: bool,
    pub classified: usize,
    pub value: usize,
}

/// Classifies an operand where it lacks that; the register where it stands then.
pub fn wanted(body: &mut Body<'_>, operand: WantedOperand) -> Result<usize, AllocError>
    ensures built { OnOk result (built body.new ≡
        with_steps (built body.old) (classifying operand.lacks operand.classified operand.value)) }
    ensures register { IfOk result (λ r. r ≡ picked operand.lacks operand.classified operand.value) }
{
    if !operand.lacks {
        return Ok(operand.value);
    }
    body.push(Step::Classify {
        to: operand.classified,
        source: operand.value,
    })?;
    Ok(operand.classified)
}
