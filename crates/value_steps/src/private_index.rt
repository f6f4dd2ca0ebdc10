// Elements at private indices.
ghost use Rattle.std.specs.Prelude.{◌≡◌, ◌≤◌, length, IfOk};
ghost use Rattle.oblivious_index.specs.Lookup.{looked};
ghost use Rattle.language_model.specs.Operations as row;
ghost use Rattle.value_steps.specs.Steps.{Does};
ghost use Rattle.value_steps.specs.Views.{stage_seen, value_seen, world_seen};

use crate::classification::wanted;
use crate::drawing::{draw, words_for_lookup};
use crate::element_gates::SizedOperand;
use crate::gating::{lookup_gates, number_of};
use crate::halt::Halt;
use crate::stage::Stage;
use crate::steps::charged_array;
use crate::value::Value;
use crate::world::World;
use program_trees::Shape;
use std::alloc::{AllocError, Global};

/// The elements at these indices, 0 where the array has none there: as many as there are indices.
#[tactic(auto, using(crate::proofs::ResultSizes::length_looked))]
fn elements_at(alloc: Global, array: &[u64], indices: &[u64]) -> Result<Vec<u64>, AllocError>
    ensures words { IfOk result (λ words. words.items ≡ looked array.now indices.now) }
    ensures size { IfOk result (λ words. length words.items ≡ length indices.now) }
{
    vector_ops::looked_up(alloc, array, indices)
}

/// The elements of a private array at private indices, 0 where it has none there: nobody learns which they are.
pub fn looked_up(
    alloc: Global,
    world: &World<'_>,
    stage: &mut Stage<'_>,
    line: u32,
    array: &Value,
    index: &Value,
) -> Result<Value, Halt>
    ensures step { Does value_seen (row.looked_up (world_seen world.now) line (value_seen array.now) (value_seen index.now))
        (stage_seen stage.old) result (stage_seen stage.new) }
    ensures spends { stage.new.left ≤ stage.old.left }
{
    let (n, m) = (array.size(), index.size());
    charged_array(stage, line, n * m)?;
    draw(world, stage, words_for_lookup(n * m))?;
    let array_number = number_of(alloc, stage, array)?;
    let index_number = number_of(alloc, stage, index)?;
    let number = lookup_gates(
        alloc,
        stage,
        SizedOperand {
            number: array_number,
            size: n,
        },
        SizedOperand {
            number: index_number,
            size: m,
        },
    )?;
    let words = elements_at(alloc, &array.words, &index.words)?;
    let shape = Shape {
        element: array.shape.element,
        array: index.shape.array,
    };
    Ok(Value::hidden(shape, number, words))
}

/// The same of an array and indices that may be public: such a one is classified, the array first.
pub fn lookup(
    alloc: Global,
    world: &World<'_>,
    stage: &mut Stage<'_>,
    line: u32,
    array: Value,
    index: Value,
) -> Result<Value, Halt>
    ensures step { Does value_seen (row.lookup (world_seen world.now) line (value_seen array) (value_seen index))
        (stage_seen stage.old) result (stage_seen stage.new) }
    ensures spends { stage.new.left ≤ stage.old.left }
{
    let array = wanted(alloc, stage, true, array)?;
    let index = wanted(alloc, stage, true, index)?;
    looked_up(alloc, world, stage, line, &array, &index)
}
