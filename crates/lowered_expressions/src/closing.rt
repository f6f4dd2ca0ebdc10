// The steps after the code of a node's operands.
ghost use Rattle.std.specs.Prelude.{◌≡◌, ◌+◌, ◌<◌, [], ◌∷◌, ◌++◌, OnOk, length};
ghost use Rattle.verified_code.specs.Steps as S;
ghost use Rattle.code_model.specs.Expressions.{classifying, picked, settling};
ghost use Rattle.lowered_expressions.specs.Built.{with_steps};
ghost use Rattle.lowered_expressions.specs.Parts.{lookup_end, one_step, cut_closed};
ghost use Rattle.lowered_expressions.specs.Views.{built, step_seen};

use crate::body::Body;
use crate::operands::{WantedOperand, wanted};
use crate::step::Step;
use crate::words::{deciding, truth_word};
use program_trees::{Cast, Connective, DataType, Operation};
use std::alloc::AllocError;

/// An operation on one operand.
#[derive(Clone, Copy)]
pub enum One {
    Size,
    Sum,
    Bits(u32),
    Not,
    Cast(Cast),
    Declassify,
}

/// An operation on two operands, of which the left one's code is there: the register of what it gives, the one where the left operand
/// stands, one of its row for the left operand's classification, or for what it decides alone, and whether that operand is private.
#[derive(Clone, Copy)]
pub struct LeftOperand {
    pub to: usize,
    pub value: usize,
    pub beside: usize,
    pub secret: bool,
}

/// The step of an operation on one operand.
pub fn one_step<'p>(one: One, to: usize, source: usize) -> Step<'p>
    ensures { step_seen result ≡ one_step one to source }
{
    match one {
        One::Size => Step::Size { to, source },
        One::Sum => Step::Sum { to, source },
        One::Bits(line) => Step::Bits { line, to, source },
        One::Not => Step::Not { to, source },
        One::Cast(cast) => Step::Cast { cast, to, source },
        One::Declassify => Step::Declassify { to, source },
    }
}

/// The end of an operation on two operands: each is classified where it lacks that.
pub fn close_binary(
    body: &mut Body<'_>,
    operation: Operation,
    to: usize,
    left: WantedOperand,
    right: WantedOperand,
) -> Result<(), AllocError>
    ensures { OnOk result (built body.new ≡ with_steps (built body.old)
        (classifying left.lacks left.classified left.value ++ (classifying right.lacks right.classified right.value
        ++ S.Binary operation.line operation.operator operation.operands to (picked left.lacks left.classified left.value)
        (picked right.lacks right.classified right.value) ∷ []))) }
{
    let left = wanted(body, left)?;
    let right = wanted(body, right)?;
    body.push(Step::Binary {
        line: operation.line,
        operator: operation.operator,
        operands: operation.operands,
        to,
        left,
        right,
    })
}

/// The end of a look-up: the array and the index are classified where they lack that.
pub fn close_lookup(
    body: &mut Body<'_>,
    line: u32,
    to: usize,
    array: WantedOperand,
    index: WantedOperand,
) -> Result<(), AllocError>
    ensures { OnOk result (built body.new ≡ with_steps (built body.old)
        (lookup_end line to array.lacks array.classified array.value index.lacks index.classified index.value)) }
{
    let array = wanted(body, array)?;
    let index = wanted(body, index)?;
    body.push(Step::Lookup {
        line,
        to,
        array,
        index,
    })
}

// A classified value, or the same one.
fn settling<'p>(secret: bool, to: usize, source: usize) -> Step<'p>
    ensures { step_seen result ≡ settling secret to source }
{
    if secret {
        Step::Classify { to, source }
    } else {
        Step::Move { to, source }
    }
}

/// The end of a connective that is cut short: what the right operand gives, or what stands in its place, private where the right operand
/// is. The branch at its place leads there.
pub fn close_cut(
    body: &mut Body<'_>,
    connective: Connective,
    private: bool,
    left: LeftOperand,
    value: usize,
    branch: usize,
) -> Result<(), AllocError>
    requires { branch < length (built body.old).pieces }
    ensures { OnOk result (built body.new ≡ cut_closed (built body.old) connective private left.to left.beside left.value value branch) }
{
    let LeftOperand { to, beside, .. } = left;
    let end = body.next_place() + 4;
    body.push(Step::Move { to, source: value })?;
    body.push(Step::Jump { target: end })?;
    let decided = body.next_place();
    body.push(Step::Literal {
        to: beside,
        element: DataType::Bool,
        word: truth_word(deciding(connective)),
    })?;
    body.push(settling(private, to, beside))?;
    body.set(
        branch,
        Step::Branch {
            condition: left.value,
            value: deciding(connective),
            target: decided,
        },
    );
    Ok(())
}
