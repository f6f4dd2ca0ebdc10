// Shares that are added up for the client.
ghost use Rattle.std.specs.Prelude.{◌≡◌, IfOk};
ghost use Rattle.gates.specs.Clear.{ring_of};
ghost use Rattle.shared_gates.specs.Shares.{sum_of};
ghost use Rattle.language_model.specs.Values.{ring_for};
ghost use Rattle.code_places.specs.Places.{element_type_of};
ghost use Rattle.code_runs.specs.ClientTold as C;

use bit_words::unpacked;
use program_trees::DataType;
use proto_core::{AddRing, ShareRing, XorRing};
use std::alloc::{AllocError, Global};

/// Three shares of a word added up: as numbers, or bit by bit for words of truth values.
fn word_added_up(element: DataType, x: u64, y: u64, z: u64) -> u64
    ensures { result ≡ sum_of (ring_of (ring_for element)) x y z }
{
    match element {
        DataType::Uint64 | DataType::Int64 => AddRing::add(AddRing::add(x, y), z),
        DataType::Bool => XorRing::add(XorRing::add(x, y), z),
    }
}

/// The words that three lists of shares come to, as far as the shortest list goes.
fn words_added_up(
    alloc: Global,
    element: DataType,
    first: &[u64],
    second: &[u64],
    third: &[u64],
) -> Result<Vec<u64>, AllocError>
    ensures { IfOk result (λ words. words.items ≡ C.words_added_up (ring_of (ring_for element)) first.now second.now third.now) }
{
    let mut words = Vec::new(alloc);
    let count = first.len().min(second.len()).min(third.len());
    for k in 0..count {
        words.push(word_added_up(element, first[k], second[k], third[k]))?;
    }
    Ok(words)
}

/// The elements of which three miners have these shares, and of which there are so many: the numbers that the words come to, or the
/// bits of the words that they come to.
pub fn all_added_up(
    alloc: Global,
    element: DataType,
    count: u64,
    first: &[u64],
    second: &[u64],
    third: &[u64],
) -> Result<Vec<u64>, AllocError>
    ensures { IfOk result (λ elements. elements.items ≡ C.all_added_up (element_type_of element) count first.now second.now third.now) }
{
    let words = words_added_up(alloc, element, first, second, third)?;
    match element {
        DataType::Uint64 | DataType::Int64 => Ok(words),
        DataType::Bool => unpacked(alloc, &words, count as usize),
    }
}
