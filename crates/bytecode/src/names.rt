// How the names of a code are read.
ghost use Rattle.std.specs.Prelude.{◌≡◌, ◌∷◌, [], IfOk, IfSome, IsTrue, None, Some, if◌then◌else◌, map, not, reverse};
ghost use Rattle.std.specs.List.{list_any};
ghost use Rattle.std.specs.Str.{bytes_eq};
ghost use Rattle.bytecode.specs.Decoded.{names_layout};
ghost use Rattle.bytecode.specs.Layouts.{read, Makes, NameField};
ghost use Rattle.bytecode.specs.inner.Reading.{Reads};
ghost use Rattle.bytecode.specs.Writable.{is_new_name};

use crate::fault::{FaultKind, Stopped};
use crate::lists::push;
use crate::reader::Reader;
use crate::test::Test;
use indexmap::IndexSet;
use sc_text::Name;
use std::alloc::{AllocError, Global};

/// Whether a name is new; it is remembered.
fn is_new<'t>(earlier: &mut IndexSet<&'t str>, name: &'t str) -> Result<bool, AllocError>
    ensures new { IfOk result (λ new. new ≡ not (list_any (bytes_eq name.now) (reverse (map (λ n. n.now) earlier.old.keys)))) }
    ensures remembered { IfOk result (λ new. IsTrue new →
        reverse (map (λ n. n.now) earlier.new.keys) ≡ name.now ∷ reverse (map (λ n. n.now) earlier.old.keys)) }
{
    match earlier.insert(name) {
        Ok(new) => Ok(new),
        Err(_) => Err(AllocError),
    }
}

/// The name of these bytes, where it is one and new; it is remembered.
fn new_name<'t>(
    alloc: Global,
    earlier: &mut IndexSet<&'t str>,
    bytes: &'t [u8],
) -> Result<Option<Name>, AllocError>
    ensures name { IfOk result (λ found. found ≡
        (if is_new_name (reverse (map (λ n. n.now) earlier.old.keys)) bytes.now then Some bytes.now else None)) }
    ensures remembered { IfOk result (λ found. IfSome found (λ name.
        reverse (map (λ n. n.now) earlier.new.keys) ≡ name ∷ reverse (map (λ n. n.now) earlier.old.keys))) }
{
    let Ok(text) = str::from_utf8(bytes) else {
        return Ok(None);
    };
    if is_new(earlier, text)? {
        Name::from_str(alloc, text)
    } else {
        Ok(None)
    }
}

fn next_name<'t>(
    alloc: Global,
    reader: &mut Reader<'t>,
    earlier: &mut IndexSet<&'t str>,
) -> Result<Name, Stopped>
    ensures reads { Reads (λ name. name)
        (read (NameField (is_new_name (reverse (map (λ n. n.now) earlier.old.keys))) Makes) reader.old) result reader.new }
    ensures remembered { IfOk result (λ name.
        reverse (map (λ n. n.now) earlier.new.keys) ≡ name ∷ reverse (map (λ n. n.now) earlier.old.keys)) }
{
    let left = reader.left();
    let count = reader.tested(Test::NameLength)?;
    let bytes = reader.characters(count as usize)?;
    match new_name(alloc, earlier, bytes)? {
        Some(name) => Ok(name),
        None => Err(Stopped::Refused(FaultKind::BadTag, left)),
    }
}

/// The next names, so many, none twice.
pub(crate) fn all_names(
    alloc: Global,
    reader: &mut Reader<'_>,
    count: usize,
) -> Result<Vec<Name>, Stopped>
    ensures { Reads (λ v. v.items) (read (names_layout [] count) reader.old) result reader.new }
{
    let mut earlier = IndexSet::new(alloc);
    let mut found = Vec::new(alloc);
    for place in 0..count {
        let next = next_name(alloc, reader, &mut earlier)?;
        push(&mut found, next)?;
    }
    Ok(found)
}
