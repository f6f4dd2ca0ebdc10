// The two arrays that a workload's program multiplies and compares.
ghost use Rattle.std.specs.Prelude.{◌≡◌, ◌+◌, ◌*◌, ◌%◌, ◌^◌, ◌≤◌, ◌++◌, ◌∷◌, [], map, IfOk};
ghost use Rattle.std.specs.List.{range_with_len};
ghost use Rattle.sc_text.specs.Name.{IsName};
ghost use Rattle.value_file.specs.declared.value.Domain.TheVariants.{Private};
ghost use Rattle.value_file.specs.declared.value.Value.TheVariants.{Numbers};
ghost use Rattle.workload.specs.Load.{left_element, right_element, load_count, load_entries};

use sc_text::Name;
use std::alloc::{AllocError, Global};
use value_file::{Domain, Entry, Inputs, Value, Words};

/// The most elements of an array, with one more than that.
const SIZES: u64 = 600;

fn load_name(alloc: Global, text: &str) -> Result<Name, AllocError>
    requires { IsName text.now }
    ensures { IfOk result (λ name. name ≡ text.now) }
{
    match Name::from_str(alloc, text)? {
        Some(name) => Ok(name),
        None => unreachable!(),
    }
}

/// A private input of this name and these words.
fn private_words(alloc: Global, name: &str, words: Vec<u64>) -> Result<Entry, AllocError>
    requires { IsName name.now }
    ensures { IfOk result (λ entry. entry ≡ record { name = name.now; domain = Private; value = Numbers words.items }) }
{
    Ok(Entry {
        name: load_name(alloc, name)?,
        domain: Domain::Private,
        value: Value::Numbers(Words::new(words)),
    })
}

/// The first array: element j is j times the number with 1 added.
fn left_words(alloc: Global, number: u64, count: u64) -> Result<Vec<u64>, AllocError>
    ensures { IfOk result (λ words. words.items ≡ map (left_element number) (range_with_len 0 count)) }
{
    let mut words = Vec::new(alloc);
    for j in 0..count {
        words.push(number.wrapping_add(1).wrapping_mul(j))?;
    }
    Ok(words)
}

/// The second array: element j is the number with j added.
fn right_words(alloc: Global, number: u64, count: u64) -> Result<Vec<u64>, AllocError>
    ensures { IfOk result (λ words. words.items ≡ map (right_element number) (range_with_len 0 count)) }
{
    let mut words = Vec::new(alloc);
    for j in 0..count {
        words.push(number.wrapping_add(j))?;
    }
    Ok(words)
}

/// The two inputs of the workload of this number.
pub fn load_inputs(alloc: Global, number: u64) -> Result<Inputs, AllocError>
    ensures { IfOk result (λ inputs. inputs ≡ load_entries number) }
{
    let count = 1 + number % SIZES;
    let left = left_words(alloc, number, count)?;
    let right = right_words(alloc, number, count)?;
    let mut entries = Vec::new(alloc);
    entries.push(private_words(alloc, "a", left)?)?;
    entries.push(private_words(alloc, "b", right)?)?;
    Ok(Inputs::new(entries))
}
