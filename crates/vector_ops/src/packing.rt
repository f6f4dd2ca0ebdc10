// Values as words of the gates.
ghost use Rattle.std.specs.Prelude.{◌≡◌, ◌≤◌, IfOk};
ghost use Rattle.language_model.specs.Values as V;

use program_trees::DataType;
use std::alloc::{AllocError, Global};

/// The words that a value has in the gates: those of numbers as they are, truth values packed, 64 in a word.
pub fn gate_words(alloc: Global, element: DataType, xs: &[u64]) -> Result<Vec<u64>, AllocError>
    ensures { IfOk result (λ words. words.items ≡ V.gate_words element xs.now) }
{
    match element {
        DataType::Uint64 | DataType::Int64 => Vec::from_slice(alloc, xs),
        DataType::Bool => bit_words::packed(alloc, xs),
    }
}

/// The same of elements that are given up: those of numbers are not copied.
pub fn into_gate_words(
    alloc: Global,
    element: DataType,
    words: Vec<u64>,
) -> Result<Vec<u64>, AllocError>
    ensures { IfOk result (λ made. made.items ≡ V.gate_words element words.items) }
{
    match element {
        DataType::Uint64 | DataType::Int64 => Ok(words),
        DataType::Bool => bit_words::packed(alloc, &words),
    }
}

/// How many words a value of `n` elements has in the gates.
pub fn gate_size(element: DataType, n: u64) -> u64
    ensures size { result ≡ V.gate_size element n }
    ensures few { result ≤ n }
{
    match element {
        DataType::Uint64 | DataType::Int64 => n,
        DataType::Bool => bit_words::words_for(n),
    }
}
