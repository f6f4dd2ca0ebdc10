// What a file's inputs are to a run.
ghost use Rattle.std.specs.Prelude.{◌≡◌, ◌≤◌, IfOk, map, length};
ghost use Rattle.language_model.specs.Words.{truth_word};
ghost use Rattle.value_file.specs.Input.{AreInputs};
ghost use Rattle.value_file.specs.Values.{count_of};
ghost use Rattle.value_steps.specs.Views.{given_seen};
ghost use Rattle.clear_eval.specs.Offers.{is_private, shape_given, words_given, input_given};

use program_trees::{DataType, Shape};
use std::alloc::{AllocError, Global};
use value_file::{Domain, Entry, Inputs, Value};
use value_steps::GivenInput;

/// The shape of an input.
pub fn shape_given(value: &Value) -> Shape
    ensures { result ≡ shape_given value.now }
{
    let (element, array) = match value {
        Value::Number(_) => (DataType::Uint64, false),
        Value::Integer(_) => (DataType::Int64, false),
        Value::Truth(_) => (DataType::Bool, false),
        Value::Numbers(_) => (DataType::Uint64, true),
        Value::Integers(_) => (DataType::Int64, true),
        Value::Truths(_) => (DataType::Bool, true),
    };
    Shape { element, array }
}

/// The words of truth values.
fn truth_words(alloc: Global, truths: &[bool]) -> Result<Vec<u64>, AllocError>
    ensures { IfOk result (λ words. words.items ≡ map truth_word truths.now) }
{
    truths.iter().map(|truth| u64::from(*truth)).collect(alloc)
}

/// The elements of an input, as words.
pub fn words_given(alloc: Global, value: &Value) -> Result<Vec<u64>, AllocError>
    ensures { IfOk result (λ words. words.items ≡ words_given value.now) }
{
    match value {
        Value::Number(word) | Value::Integer(word) => Ok(vec![in alloc; *word]?),
        Value::Truth(truth) => Ok(vec![in alloc; u64::from(*truth)]?),
        Value::Numbers(words) | Value::Integers(words) => Vec::from_slice(alloc, words.as_slice()),
        Value::Truths(truths) => truth_words(alloc, truths.as_slice()),
    }
}

/// An entry of a file, as a run takes it.
fn input_given(alloc: Global, entry: &Entry) -> Result<GivenInput, AllocError>
    requires { count_of entry.now.value ≤ 65536 }
    ensures { IfOk result (λ given. given_seen given ≡ input_given entry.now) }
{
    Ok(GivenInput {
        name: entry.name.copy(alloc)?,
        private: entry.domain == Domain::Private,
        shape: shape_given(&entry.value),
        words: words_given(alloc, &entry.value)?,
    })
}

/// The inputs of a file, as a run takes them.
pub fn inputs_given(alloc: Global, inputs: &Inputs) -> Result<Vec<GivenInput>, AllocError>
    requires { AreInputs inputs.now }
    ensures { IfOk result (λ given. map given_seen given.items ≡ map input_given inputs.now) }
{
    let mut given = Vec::new(alloc);
    for entry in inputs.entries() {
        given.push(input_given(alloc, entry)?)?;
    }
    Ok(given)
}
