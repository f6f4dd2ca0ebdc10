// Gates, their copies, and what they make of clear values.
use crate::lines::line;
use gates::{Gate, RingKind, Values, Words, blocks, evaluated};
use row_files::Lines;
use std::alloc::{AllocError, Global};

const COUNTS: [u64; 6] = [0, 1, 512, 513, 1_048_576, 18_446_744_073_709_551_615];

// A gate, its copy, and how many values it makes.
fn tell_gate(lines: &mut Lines, gate: &Gate, copied: Result<Gate, AllocError>) {
    match copied {
        Ok(copied) => write!(lines, "{gate:?}\n{copied:?}\n"),
        Err(AllocError) => lines.run_short(),
    }
    line(lines, "makes", &[gate.made_by()]);
}

fn tell_words(lines: &mut Lines, copied: Result<Words, AllocError>) {
    match copied {
        Ok(copied) => line(lines, "words", &copied.into_vec()),
        Err(AllocError) => lines.run_short(),
    }
}

// A list of words and a gate that are copied.
fn tell_copies(alloc: Global, lines: &mut Lines, list: Words) {
    tell_words(lines, list.copy(alloc));
    let gate = Gate::MulPub {
        ring: RingKind::Arithmetic,
        operand: 7,
        list,
    };
    tell_gate(lines, &gate, gate.copy(alloc));
}

// A list of gates over one input of two words.
fn listed() -> [Gate; 7] {
    [
        Gate::Input { number: 0 },
        Gate::Split {
            operand: 0,
            negated: true,
        },
        Gate::Sub { left: 1, right: 2 },
        Gate::Sum { operand: 3 },
        Gate::Put {
            operand: 3,
            index: 1,
            element: 4,
        },
        Gate::Part {
            operand: 5,
            from: 1,
            count: 1,
        },
        Gate::Shl {
            operand: 5,
            count: 64,
        },
    ]
}

// Gates on truth values that are packed into words, over the same input.
fn packing() -> [Gate; 7] {
    [
        Gate::Input { number: 0 },
        Gate::Pack { operand: 0 },
        Gate::Unpack {
            operand: 1,
            count: 3,
        },
        Gate::PartBit {
            operand: 1,
            index: 1,
        },
        Gate::RepBit {
            operand: 3,
            count: 65,
        },
        Gate::PutBit {
            operand: 4,
            index: 64,
            element: 1,
        },
        Gate::CatBit {
            left: 1,
            left_count: 2,
            right: 3,
            right_count: 1,
        },
    ]
}

// Gates that repeat the words of the input, and add them up part by part.
fn repeating() -> [Gate; 4] {
    [
        Gate::Input { number: 0 },
        Gate::Stretch {
            operand: 0,
            count: 3,
        },
        Gate::Tile {
            operand: 0,
            count: 3,
        },
        Gate::SumEach {
            operand: 2,
            size: 3,
            count: 2,
        },
    ]
}

fn inputs(alloc: Global) -> Result<Values, AllocError> {
    let mut inputs = Values::new(alloc);
    inputs.push(Words::new(vec![in alloc; 6, 1]?))?;
    Ok(inputs)
}

// The values of gates over an input of two words, with 9 for the word that is drawn.
fn values(alloc: Global, gates: &[Gate]) -> Result<Values, AllocError> {
    let inputs = inputs(alloc)?;
    evaluated(alloc, 9, &inputs, Values::new(alloc), gates)
}

fn tell_values(lines: &mut Lines, values: &Values, numbers: &[u64]) {
    for number in numbers {
        line(lines, "value", values.value(*number));
    }
}

// The lines of some of the values that gates make.
fn tell_evaluated(alloc: Global, lines: &mut Lines, gates: &[Gate], numbers: &[u64]) {
    match values(alloc, gates) {
        Ok(values) => tell_values(lines, &values, numbers),
        Err(AllocError) => lines.run_short(),
    }
}

// The lines of blocks.
fn tell_blocks(lines: &mut Lines) {
    for count in COUNTS {
        line(lines, "blocks", &[count, blocks(count)]);
    }
}

fn list(alloc: Global) -> Result<Words, AllocError> {
    Ok(Words::new(vec![in alloc; 3, 0, 9]?))
}

/// The lines of blocks, copies and values of gates.
pub fn tell(alloc: Global, lines: &mut Lines) {
    tell_blocks(lines);
    match list(alloc) {
        Ok(list) => tell_copies(alloc, lines, list),
        Err(AllocError) => lines.run_short(),
    }
    tell_evaluated(alloc, lines, &listed(), &[1, 5, 6, 7]);
    tell_evaluated(alloc, lines, &packing(), &[1, 2, 3, 4, 5, 6]);
    tell_evaluated(alloc, lines, &repeating(), &[1, 2, 3]);
}
