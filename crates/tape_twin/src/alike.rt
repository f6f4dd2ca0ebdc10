// Whether two inputs are alike.
ghost use Rattle.std.specs.Prelude.{◌≡◌, ◌↔◌, IsTrue, IfOk, IfSome, IfNone};
ghost use Rattle.value_file.specs.Public.{shown, public_entry, part_of};
ghost use Rattle.tape_twin.specs.Alike.{PartsDiffer, WordsDiffer, OneBegins};

use sc_text::Name;
use std::alloc::{AllocError, Global};
use value_file::{Domain, Entry, Value};

/// Whether two values are the same.
fn same_value(x: &Value, y: &Value) -> bool
    ensures { IsTrue result ↔ (x.now ≡ y.now) }
{
    match (x, y) {
        (Value::Number(a), Value::Number(b)) => *a == *b,
        (Value::Integer(a), Value::Integer(b)) => *a == *b,
        (Value::Truth(a), Value::Truth(b)) => *a == *b,
        (Value::Numbers(a), Value::Numbers(b)) => a.as_slice() == b.as_slice(),
        (Value::Integers(a), Value::Integers(b)) => a.as_slice() == b.as_slice(),
        (Value::Truths(a), Value::Truths(b)) => a.as_slice() == b.as_slice(),
        _ => false,
    }
}

/// Whether everybody knows the same of two values.
fn same_shown(x: &Entry, y: &Entry) -> bool
    ensures { IsTrue result ↔ (shown x.now.domain x.now.value ≡ shown y.now.domain y.now.value) }
{
    match (x.domain, y.domain) {
        (Domain::Public, Domain::Public) => same_value(&x.value, &y.value),
        (Domain::Private, Domain::Private) => {
            x.value.data_type() == y.value.data_type() && x.value.shape() == y.value.shape()
        }
        _ => false,
    }
}

/// Whether everybody knows the same of two inputs.
fn same_entry(x: &Entry, y: &Entry) -> bool
    ensures { IsTrue result ↔ (public_entry x.now ≡ public_entry y.now) }
{
    x.name.as_str() == y.name.as_str() && same_shown(x, y)
}

/// The name of the input at which the public parts of two inputs first differ, if they do: that of the first inputs, or of the second
/// where the first end.
pub fn public_difference(
    alloc: Global,
    first: &[Entry],
    second: &[Entry],
) -> Result<Option<Name>, AllocError>
    ensures some { IfOk result (λ found. IfSome found (PartsDiffer (part_of first.now) (part_of second.now))) }
    ensures none { IfOk result (λ found. IfNone found (part_of first.now ≡ part_of second.now)) }
{
    for k in 0..first.len() {
        if k >= second.len() || !same_entry(&first[k], &second[k]) {
            return Ok(Some(first[k].name.copy(alloc)?));
        }
    }
    if first.len() < second.len() {
        return Ok(Some(second[first.len()].name.copy(alloc)?));
    }
    Ok(None)
}

/// The place at which two lists of words first differ, with the word of each there; none where one of them begins with the other.
pub fn first_difference(first: &[u64], second: &[u64]) -> Option<(usize, u64, u64)>
    ensures some { IfSome result (λ found. WordsDiffer first.now second.now found.0 found.1 found.2) }
    ensures none { IfNone result (OneBegins first.now second.now) }
{
    let shorter = first.len().min(second.len());
    for k in 0..shorter {
        if first[k] != second[k] {
            return Some((k, first[k], second[k]));
        }
    }
    None
}
