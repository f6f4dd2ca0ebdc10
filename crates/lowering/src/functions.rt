// The code of functions.
ghost use Rattle.std.specs.Prelude.{◌≡◌, ◌++◌, IfOk, OnOk, length, map};
ghost use Rattle.program_trees.specs.TypedPrograms.{typed_function_tree};
ghost use Rattle.code_model.specs.Statements.{defaults_behind};
ghost use Rattle.code_model.specs.Kinds.{kind_of, rows_kinds, shape_kinds, slot_kind};
ghost use Rattle.program_trees.specs.Shapes.{shape_of};
ghost use Rattle.code_model.specs.Programs.{function_code, given_kind, last_kinds, last_step, nothing_code};
ghost use Rattle.lowered_expressions.specs.Built.{with_step};
ghost use Rattle.lowered_expressions.specs.Views.{built, here_of, numbers_of, piece_seen, step_seen};
ghost use Rattle.lowering.specs.inner.Pieces.{placed};
ghost use Rattle.lowering.specs.inner.Views.{function_seen};

use crate::place::LoweringContext;
use crate::rows::statements_depth;
use crate::statements::statements;
use bytecode::Kind;
use lowered_expressions::{Around, Body, BodyPiece, Step, kind_of};
use program_trees::{DataType, Returned, Shape, Slot, TypedFunction};
use reached_instances::{BoundDomain, domain_under, given_domain};
use std::alloc::{AllocError, Global};

/// The code of a function, with numbers as large as they come.
#[derive(Drop)]
pub struct FunctionSteps<'p> {
    pub parameters: usize,
    pub gives: Option<Kind>,
    pub registers: Vec<Kind>,
    pub steps: Vec<Step<'p>>,
}

// The kind of what stands in a slot.
fn slot_kind(binding: &[BoundDomain], slot: Slot) -> Kind
    ensures { result ≡ slot_kind binding.now slot }
{
    kind_of(domain_under(binding, slot.domain).is_private(), slot.shape)
}

// The kind of what a function gives back, if anything.
fn given_kind(binding: &[BoundDomain], given: Returned) -> Option<Kind>
    ensures { result ≡ given_kind binding.now given }
{
    match given {
        Returned::Nothing => None,
        Returned::Value(slot) => Some(slot_kind(binding, slot)),
    }
}

fn shape_kind(secret: bool, element: DataType, array: bool) -> Kind
    ensures { result ≡ kind_of secret (shape_of element array) }
{
    kind_of(secret, Shape { element, array })
}

// A register of each shape.
fn push_shapes(registers: &mut Vec<Kind>, secret: bool) -> Result<(), AllocError>
    ensures { OnOk result (registers.new.items ≡ registers.old.items ++ shape_kinds secret) }
{
    registers.extend_from_slice(&[
        shape_kind(secret, DataType::Uint64, false),
        shape_kind(secret, DataType::Uint64, true),
        shape_kind(secret, DataType::Int64, false),
        shape_kind(secret, DataType::Int64, true),
        shape_kind(secret, DataType::Bool, false),
        shape_kind(secret, DataType::Bool, true),
    ])
}

// So many rows of registers for values on their way.
fn push_rows(registers: &mut Vec<Kind>, rows: usize) -> Result<(), AllocError>
    ensures { OnOk result (registers.new.items ≡ registers.old.items ++ rows_kinds rows) }
{
    for row in 0..rows {
        push_shapes(registers, false)?;
        push_shapes(registers, true)?;
    }
    Ok(())
}

// The kinds of the slots.
fn slot_kinds(
    alloc: Global,
    binding: &[BoundDomain],
    slots: &[Slot],
) -> Result<Vec<Kind>, AllocError>
    ensures { IfOk result (λ kinds. kinds.items ≡ map (slot_kind binding.now) slots.now) }
{
    let mut kinds = Vec::new(alloc);
    for slot in slots {
        kinds.push(slot_kind(binding, *slot))?;
    }
    Ok(kinds)
}

// The registers in front of the rows: the slots, and after them those of the defaults, which nothing writes, if there is a slot.
fn first_registers(
    alloc: Global,
    binding: &[BoundDomain],
    slots: &[Slot],
) -> Result<Vec<Kind>, AllocError>
    ensures { IfOk result (λ kinds. kinds.items ≡ map (slot_kind binding.now) slots.now ++ defaults_behind slots.now) }
{
    let mut registers = slot_kinds(alloc, binding, slots)?;
    if !slots.is_empty() {
        push_shapes(&mut registers, false)?;
    }
    Ok(registers)
}

// The last step: nothing is given back, or a register that nothing writes.
fn push_last(
    body: &mut Body<'_>,
    registers: &mut Vec<Kind>,
    binding: &[BoundDomain],
    given: Returned,
) -> Result<(), AllocError>
    ensures body { OnOk result (built body.new ≡ with_step (built body.old) (last_step given (length registers.old.items))) }
    ensures registers { OnOk result (registers.new.items ≡ registers.old.items ++ last_kinds binding.now given) }
{
    match given {
        Returned::Nothing => body.push(Step::ReturnNone),
        Returned::Value(slot) => {
            let source = registers.len();
            registers.push(slot_kind(binding, slot))?;
            body.push(Step::Return { source })
        }
    }
}

// The step of a piece, where breaks and continues lead to a place.
fn placed<'p>(piece: BodyPiece<'p>, end: usize) -> Step<'p>
    ensures { step_seen result ≡ placed end end (piece_seen piece.entry) }
{
    match piece {
        BodyPiece::Whole(step) => step,
        BodyPiece::Break | BodyPiece::Continue => Step::Jump { target: end },
    }
}

// The steps of pieces.
fn all_placed<'p>(
    alloc: Global,
    pieces: Vec<BodyPiece<'p>>,
    end: usize,
) -> Result<Vec<Step<'p>>, AllocError>
    ensures { IfOk result (λ steps. map step_seen steps.items ≡ map (placed end end) (map piece_seen pieces.entry.items)) }
{
    let mut steps = Vec::with_capacity(alloc, pieces.len())?;
    for piece in pieces {
        steps.push(placed(piece, end))?;
    }
    Ok(steps)
}

/// The code of a function under a binding: its slots are the first registers; a break outside of a loop would lead after the body. An
/// error comes where memory runs short.
pub fn function_steps<'p>(
    around: &Around<'_>,
    function: &'p TypedFunction,
) -> Result<FunctionSteps<'p>, AllocError>
    requires { around.now.here.slots.now ≡ function.now.slots.items }
    ensures { IfOk result (λ f. function_seen f ≡ function_code (numbers_of around.now) (here_of around.now).functions
        (typed_function_tree function.now) (here_of around.now).binding) }
{
    let binding = around.here.binding;
    let at = LoweringContext {
        around: *around,
        secret_result: given_domain(binding, function.given).is_private(),
    };
    let mut registers = first_registers(around.alloc, binding, &function.slots)?;
    let rows = statements_depth(&function.body)?;
    push_rows(&mut registers, rows)?;
    let mut body = Body {
        pieces: Vec::new(around.alloc),
    };
    statements(&mut body, &at, &function.body)?;
    let end = body.next_place();
    push_last(&mut body, &mut registers, binding, function.given)?;
    let Body { pieces } = body;
    let steps = all_placed(around.alloc, pieces, end)?;
    Ok(FunctionSteps {
        parameters: function.parameters,
        gives: given_kind(binding, function.given),
        registers,
        steps,
    })
}

/// The code of an instance whose function isn't there.
pub fn nothing_steps<'p>(alloc: Global) -> FunctionSteps<'p>
    ensures { function_seen result ≡ nothing_code }
{
    FunctionSteps {
        parameters: 0,
        gives: None,
        registers: Vec::new(alloc),
        steps: Vec::new(alloc),
    }
}
