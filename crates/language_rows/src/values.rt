// Words and lists that no program reaches, and a program of no functions.
ghost use Rattle.value_file.specs.Input.{AreInputs};

use clear_eval::eval;
use program_trees::{BinaryOperator, DataType, OperatorSign, TypedProgram};
use row_files::Lines;
use sc_text::Event;
use std::alloc::{AllocError, Global};
use value_file::{Inputs, read};
use vector_ops::{each, elements, first_word, flipped, low_bits, operation};

const TOP: u64 = 18_446_744_073_709_551_615;

// Of lists of different lengths the differences, words that are flipped, their lowest bits, 7 divided by 0, and the first word of none.
fn words(alloc: Global) -> Result<Vec<u64>, AllocError> {
    let minus = BinaryOperator::Words(OperatorSign::Subtract);
    let mut found = each(alloc, minus, &[5, 1, 9], &[2, 3])?;
    found.append(&mut flipped(alloc, &[0, 1, 2])?)?;
    found.append(&mut low_bits(alloc, &[TOP, 6])?)?;
    found.push(operation(BinaryOperator::Words(OperatorSign::Divide), 7, 0))?;
    found.push(operation(BinaryOperator::Words(OperatorSign::Remainder), 7, 0))?;
    found.push(first_word(&[]))?;
    Ok(found)
}

fn tell_words(lines: &mut Lines, found: Result<Vec<u64>, AllocError>) {
    match found {
        Ok(found) => write!(lines, "words {:?}\n", found.as_slice()),
        Err(AllocError) => lines.run_short(),
    }
}

// A truth value is any word but 0.
fn tell_truths(alloc: Global, lines: &mut Lines) {
    match elements(alloc, DataType::Bool, &[0, 2]) {
        Ok(truths) => write!(lines, "{}", Event::Open(truths)),
        Err(AllocError) => lines.run_short(),
    }
}

// What is done where no function is.
fn tell_no_functions(alloc: Global, lines: &mut Lines, inputs: &Inputs)
    requires { AreInputs inputs.now }
{
    let empty = TypedProgram {
        functions: Vec::new(alloc),
    };
    match eval(alloc, &empty, inputs, 0, [2, 0, 0, 0]) {
        Ok(report) => write!(lines, "no functions: {}", report.end),
        Err(AllocError) => lines.run_short(),
    }
}

/// The lines of words, of truth values and of a program of no functions.
pub fn tell(alloc: Global, lines: &mut Lines) {
    tell_words(lines, words(alloc));
    tell_truths(alloc, lines);
    match read(alloc, b"{\"inputs\":[]}") {
        Ok(inputs) => tell_no_functions(alloc, lines, &inputs),
        Err(_) => lines.add("no functions: no inputs\n"),
    }
}
