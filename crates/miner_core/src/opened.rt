// The elements of what the gates have opened.
ghost use Rattle.std.specs.Prelude.{◌≡◌, IfOk, option_map};
ghost use Rattle.bytecode.specs.Raw.{RawCode};
ghost use Rattle.verified_code.specs.InMemory.{step_in};
ghost use Rattle.code_machine.specs.Views.{machine_seen};
ghost use Rattle.miner_core.specs.TurnViews.{elements_if_opened, answers_of};

use code_machine::Machine;
use program_trees::DataType;
use std::alloc::{AllocError, Global};
use verified_code::Step;

/// The elements of a value of `n` of which the gates have opened these words: of truth values a word for each bit. Where nothing was opened there
/// are none.
#[tactic(auto, using(crate::proofs::OpenedElements::none_opened, crate::proofs::OpenedElements::some_opened))]
fn elements_if_opened(
    alloc: Global,
    element: DataType,
    n: u64,
    told: &[u64],
) -> Result<Vec<u64>, AllocError>
    ensures { IfOk result (λ elements. elements.items ≡ elements_if_opened element n told.now) }
{
    if told.is_empty() {
        return Ok(Vec::new(alloc));
    }
    match element {
        DataType::Uint64 | DataType::Int64 => Vec::from_slice(alloc, told),
        DataType::Bool => bit_words::unpacked(alloc, told, n as usize),
    }
}

/// What a step, which was read off the code, is told of the words that the gates have opened: elements, if it opens a value, and else the words.
pub(crate) fn answers_told(
    alloc: Global,
    coming: Option<Step<'_>>,
    machine: &Machine,
    told: &[u64],
) -> Result<Vec<u64>, AllocError>
    ensures { IfOk result (λ answers. (code : RawCode) →
        answers.items ≡ answers_of (option_map step_in coming.entry) (machine_seen code machine.now) told.now) }
{
    match coming {
        Some(Step::Declassify { source, .. }) => {
            let element = machine.shape_in(source).element;
            elements_if_opened(alloc, element, machine.size_in(source), told)
        }
        _ => Vec::from_slice(alloc, told),
    }
}
