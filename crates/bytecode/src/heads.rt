// How what stands of functions before their bodies is read.
ghost use Rattle.std.specs.Prelude.{◌≡◌, length, map, IfOk};
ghost use Rattle.bytecode.specs.Decoded.{head_layout, heads_layout, kind_layout, repeated};
ghost use Rattle.bytecode.specs.InMemory.{raw_head};
ghost use Rattle.bytecode.specs.Layouts.{read};
ghost use Rattle.bytecode.specs.inner.Reading.{Reads};

use crate::fault::Stopped;
use crate::head::Head;
use crate::kind::{Kind, kind_of, return_of};
use crate::lists::push;
use crate::reader::Reader;
use crate::test::Test;
use crate::version::CodeVersion;
use std::alloc::Global;

fn next_kind(reader: &mut Reader<'_>, version: CodeVersion) -> Result<Kind, Stopped>
    ensures { Reads (λ k. k) (read (kind_layout version) reader.old) result reader.new }
{
    let byte = reader.tested(Test::Kind(version))?;
    Ok(kind_of(byte))
}

fn kinds(
    alloc: Global,
    reader: &mut Reader<'_>,
    version: CodeVersion,
    count: usize,
) -> Result<Vec<Kind>, Stopped>
    ensures reads { Reads (λ v. v.items) (read (repeated (kind_layout version) count) reader.old) result reader.new }
    ensures exact { IfOk result (λ v. length v.items ≡ count) }
{
    let mut found = Vec::new(alloc);
    for place in 0..count {
        let next = next_kind(reader, version)?;
        push(&mut found, next)?;
    }
    Ok(found)
}

fn next_head(alloc: Global, reader: &mut Reader<'_>, version: CodeVersion) -> Result<Head, Stopped>
    ensures { Reads raw_head (read (head_layout version) reader.old) result reader.new }
{
    let parameters = reader.short()?;
    let gives = reader.tested(Test::Return(version))?;
    let count = reader.short()?;
    let registers = kinds(alloc, reader, version, count as usize)?;
    let instructions = reader.short()?;
    Ok(Head {
        parameters,
        gives: return_of(gives),
        registers,
        instructions,
    })
}

/// The next heads, so many.
pub(crate) fn all_heads(
    alloc: Global,
    reader: &mut Reader<'_>,
    version: CodeVersion,
    count: usize,
) -> Result<Vec<Head>, Stopped>
    ensures { Reads (λ v. map raw_head v.items) (read (heads_layout version count) reader.old) result reader.new }
{
    let mut found = Vec::new(alloc);
    for place in 0..count {
        let next = next_head(alloc, reader, version)?;
        push(&mut found, next)?;
    }
    Ok(found)
}
