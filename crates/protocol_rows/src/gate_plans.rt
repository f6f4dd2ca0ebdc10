// Plans of equality, bits, order and look-up, with what they make of clear values.
use crate::lines::line;
use gates::{Gate, Values, Words, evaluated};
use plans::{bit_extract, compare, equality};
use row_files::Lines;
use std::alloc::{AllocError, Global};

const TOP: u64 = 18_446_744_073_709_551_615;

const MASKS: [u64; 3] = [0, 1, 11_400_714_819_323_198_485];

// Three words of each operand of a plan.
fn operands(alloc: Global, operands: &[[u64; 3]]) -> Result<Values, AllocError> {
    let mut values = Values::new(alloc);
    for words in operands {
        values.push(Words::new(vec![in alloc; words[0], words[1], words[2]]?))?;
    }
    Ok(values)
}

// What the gates of a plan make of its operands.
fn made(
    alloc: Global,
    mask: u64,
    gates: &[Gate],
    before: &[[u64; 3]],
) -> Result<Values, AllocError> {
    let before = operands(alloc, before)?;
    evaluated(alloc, mask, &Values::new(alloc), before, gates)
}

fn tell_made(lines: &mut Lines, name: &str, gates: usize, mask: u64, values: &Values) {
    let count = values.len() as u64;
    line(lines, name, &[gates as u64, mask, count]);
    line(lines, "", values.value(count.saturating_sub(1)));
}

// How many gates a plan has, a word that may be drawn, how many values there are after its operands then, and the last.
fn tell_masks(alloc: Global, lines: &mut Lines, name: &str, gates: &[Gate], before: &[[u64; 3]]) {
    for mask in MASKS {
        match made(alloc, mask, gates, before) {
            Ok(values) => tell_made(lines, name, gates.len(), mask, &values),
            Err(AllocError) => lines.run_short(),
        }
    }
}

fn tell_plan(
    alloc: Global,
    lines: &mut Lines,
    name: &str,
    plan: Result<Vec<Gate>, AllocError>,
    before: &[[u64; 3]],
) {
    match plan {
        Ok(gates) => tell_masks(alloc, lines, name, &gates, before),
        Err(AllocError) => lines.run_short(),
    }
}

/// The lines of the plans, and of two with packed results.
pub fn tell(alloc: Global, lines: &mut Lines) {
    let words = [[0, TOP, 5]];
    let numbers = [[TOP, 1, 5], [1, TOP, 5]];
    let plan = equality::plan(alloc, 1, 0, 3);
    tell_plan(alloc, lines, "equality", plan, &words);
    let plan = bit_extract::plan(alloc, 1, 0, 3);
    tell_plan(alloc, lines, "bits", plan, &words);
    let plan = compare::plan(alloc, 2, 0, 1, 3);
    tell_plan(alloc, lines, "less", plan, &numbers);
    let plan = equality::packed_plan(alloc, 1, 0, 3);
    tell_plan(alloc, lines, "packed equality", plan, &words);
    let plan = compare::packed_plan(alloc, 2, 0, 1, 3);
    tell_plan(alloc, lines, "packed less", plan, &numbers);
    let plan = oblivious_index::plan(alloc, 2, 0, 1, 3, 3);
    tell_plan(alloc, lines, "lookup", plan, &[[10, 20, 30], [1, 3, 0]]);
}
