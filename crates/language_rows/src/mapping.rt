// Tapes that a miner's view of a run is made of, and the way back.
ghost use Rattle.std.specs.Prelude.{IfSome};
ghost use Rattle.program_trees.specs.TypedPrograms.{typed_program_tree};
ghost use Rattle.program_trees.specs.Sound.{IsSound};
ghost use Rattle.value_file.specs.Input.{AreInputs};
ghost use Rattle.tape_twin.specs.Accepted.{IsAcceptedProgram};

use crate::runs::inputs_of;
use front_end::read_program;
use program_trees::TypedProgram;
use program_typing::checked_tree;
use proto_core::Number;
use reached_instances::check_limits;
use row_files::Lines;
use std::alloc::{AllocError, Global};
use tape_file::Tapes;
use tape_twin::{from_sim, to_sim};
use value_file::Inputs;

const SUM: &str = "import stdlib; import shared3p; domain p shared3p; void main() {\n\
    p uint64 a = argument(\"a\"); p uint64 b = argument(\"b\"); publish(\"s\", declassify(a + b));\n}\n";

const SIX_AND_SEVEN: &str =
    "{\"name\":\"a\",\"domain\":\"private\",\"type\":\"uint64\",\"value\":6},\
    {\"name\":\"b\",\"domain\":\"private\",\"type\":\"uint64\",\"value\":7}";

// The typed tree of a text's program, where it is accepted and small enough.
fn accepted(alloc: Global, text: &str) -> Option<TypedProgram>
    ensures sound { IfSome result (λ p. IsSound (typed_program_tree p)) }
    ensures accepted { IfSome result (λ p. IsAcceptedProgram (typed_program_tree p)) }
{
    let Ok(program) = read_program(alloc, text.as_bytes()) else {
        return None;
    };
    let Ok(typed) = checked_tree(alloc, &program) else {
        return None;
    };
    match check_limits(alloc, &typed) {
        Ok(()) => Some(typed),
        Err(_) => None,
    }
}

// Tapes of zeros, as many words as the sum of two numbers takes.
fn zeros(alloc: Global) -> Result<Tapes, AllocError> {
    Ok(Tapes::new(
        vec![in alloc; 0, 0, 0, 0]?,
        vec![in alloc; 0]?,
        vec![in alloc; 0]?,
        vec![in alloc; 0]?,
    ))
}

fn tell_tapes(lines: &mut Lines, name: &str, tapes: &Tapes) {
    write!(
        lines,
        "{name} {:?} {:?} {:?} {:?}\n",
        tapes.dealer(),
        tapes.miner1(),
        tapes.miner2(),
        tapes.miner3()
    );
}

fn tell_back(lines: &mut Lines, again: Result<Tapes, AllocError>) {
    match again {
        Ok(again) => tell_tapes(lines, "mapped back", &again),
        Err(AllocError) => lines.run_short(),
    }
}

// What the third miner's view of a run on these tapes is made of, and the tapes of the run whose view is made of that.
fn tell_third(
    alloc: Global,
    lines: &mut Lines,
    program: &TypedProgram,
    inputs: &Inputs,
    tapes: &Tapes,
)
    requires sound { IsSound (typed_program_tree program.now) }
    requires accepted { IsAcceptedProgram (typed_program_tree program.now) }
    requires inputs { AreInputs inputs.now }
{
    match to_sim(alloc, Number::Three, program, inputs, tapes, 1000) {
        Ok(simulated) => {
            tell_tapes(lines, "mapped", &simulated);
            let again = from_sim(alloc, Number::Three, program, inputs, &simulated, 1000);
            tell_back(lines, again);
        }
        Err(AllocError) => lines.run_short(),
    }
}

/// The lines of tapes that are mapped, and mapped back.
pub fn tell(alloc: Global, lines: &mut Lines) {
    match (
        accepted(alloc, SUM),
        inputs_of(alloc, SIX_AND_SEVEN),
        zeros(alloc),
    ) {
        (Some(program), Some(inputs), Ok(tapes)) => {
            tell_third(alloc, lines, &program, &inputs, &tapes);
        }
        _ => lines.add("not read\n"),
    }
}
