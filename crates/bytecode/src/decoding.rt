// How a whole text is read.
ghost use Rattle.std.specs.Prelude.{◌≡◌, ◌-◌, IfOk, map};
ghost use Rattle.bytecode.specs.declared.fault.DecodeErr.TheVariants.{Refused};
ghost use Rattle.bytecode.specs.Decoded.{bodies_layout, code_layout, decoded, decoded_by, decoded_v1};
ghost use Rattle.bytecode.specs.Decoding.{IsDecoded, function_layout, opening_layout, settled, some_functions_layout};
ghost use Rattle.bytecode.specs.InMemory.{raw_code, raw_function, raw_head};
ghost use Rattle.bytecode.specs.Layouts.{read};
ghost use Rattle.bytecode.specs.Versions.{counting, version_byte};
ghost use Rattle.bytecode.specs.inner.Reading.{Reads};

use crate::code::{Code, CodeFunction, MAGIC};
use crate::fault::{DecodeErr, DecodeFault, FaultKind, Stopped};
use crate::head::Head;
use crate::heads::all_heads;
use crate::lists::push;
use crate::names::all_names;
use crate::operands::body;
use crate::reader::Reader;
use crate::version::CodeVersion;
use std::alloc::{AllocError, Global};

fn opening(reader: &mut Reader<'_>, version: CodeVersion) -> Result<(), Stopped>
    ensures { Reads (λ _. version_byte version) (read (opening_layout version) reader.old) result reader.new }
{
    reader.expect(MAGIC[0], FaultKind::BadTag)?;
    reader.expect(MAGIC[1], FaultKind::BadTag)?;
    reader.expect(MAGIC[2], FaultKind::BadTag)?;
    reader.expect(MAGIC[3], FaultKind::BadTag)?;
    reader.expect(version.byte(), FaultKind::BadVersion)
}

/// How many parameters the functions have.
fn parameters_of(alloc: Global, heads: &[Head]) -> Result<Vec<u16>, AllocError>
    ensures { IfOk result (λ counts. counts.items ≡ map (λ h. h.parameters) heads.now) }
{
    let mut counts = Vec::new(alloc);
    for head in heads {
        push(&mut counts, head.parameters)?;
    }
    Ok(counts)
}

fn function(
    alloc: Global,
    reader: &mut Reader<'_>,
    version: CodeVersion,
    parameters: &[u16],
    head: Head,
) -> Result<CodeFunction, Stopped>
    ensures { Reads raw_function (read (function_layout (counting version parameters.now) (raw_head head)) reader.old) result reader.new }
{
    let body = body(
        alloc,
        reader,
        version,
        parameters,
        head.instructions as usize,
    )?;
    Ok(CodeFunction {
        parameters: head.parameters,
        gives: head.gives,
        registers: head.registers,
        body,
    })
}

fn bodies(
    alloc: Global,
    reader: &mut Reader<'_>,
    version: CodeVersion,
    parameters: &[u16],
    heads: Vec<Head>,
) -> Result<Vec<CodeFunction>, Stopped>
    ensures { Reads (λ v. map raw_function v.items)
        (read (bodies_layout (counting version parameters.now) (map raw_head heads.items)) reader.old) result reader.new }
{
    let mut functions = Vec::new(alloc);
    for head in heads {
        let next = function(alloc, reader, version, parameters, head)?;
        push(&mut functions, next)?;
    }
    Ok(functions)
}

fn functions(
    alloc: Global,
    reader: &mut Reader<'_>,
    version: CodeVersion,
) -> Result<Vec<CodeFunction>, Stopped>
    ensures { Reads (λ v. map raw_function v.items) (read (some_functions_layout version) reader.old) result reader.new }
{
    let count = reader.count()?;
    let heads = all_heads(alloc, reader, version, count as usize)?;
    let parameters = parameters_of(alloc, &heads)?;
    bodies(alloc, reader, version, &parameters, heads)
}

fn code(alloc: Global, reader: &mut Reader<'_>, version: CodeVersion) -> Result<Code, Stopped>
    ensures { Reads raw_code (read (code_layout version) reader.old) result reader.new }
{
    opening(reader, version)?;
    let count = reader.short()?;
    let names = all_names(alloc, reader, count as usize)?;
    let functions = functions(alloc, reader, version)?;
    Ok(Code { names, functions })
}

fn fault(kind: FaultKind, size: usize, left: usize) -> DecodeErr
    ensures { result ≡ Refused (record { kind = kind; place = size - left }) }
{
    DecodeErr::Refused(DecodeFault {
        kind,
        place: size.saturating_sub(left),
    })
}

/// What was read of a text of so many bytes, of which so many are left.
fn settled(read: Result<Code, Stopped>, size: usize, left: usize) -> Result<Code, DecodeErr>
    ensures { result ≡ settled size read left }
{
    match read {
        Ok(code) if left == 0 => Ok(code),
        Ok(_) => Err(fault(FaultKind::Trailing, size, left)),
        Err(Stopped::Refused(kind, behind)) => Err(fault(kind, size, behind)),
        Err(Stopped::Memory) => Err(DecodeErr::Memory),
    }
}

fn decode_by(alloc: Global, version: CodeVersion, bytes: &[u8]) -> Result<Code, DecodeErr>
    ensures { IsDecoded (decoded_by version bytes.now) result }
{
    let mut reader = Reader::new(bytes);
    let code = code(alloc, &mut reader, version);
    let left = reader.left();
    settled(code, bytes.len(), left)
}

/// Reads code, or tells the first fault of the text.
pub fn decode(alloc: Global, bytes: &[u8]) -> Result<Code, DecodeErr>
    ensures { IsDecoded (decoded bytes.now) result }
{
    decode_by(alloc, CodeVersion::Second, bytes)
}

/// Reads code of the first version, or tells the first fault of the text. There the number of a call's arguments doesn't stand before
/// them: it is that of the called function's parameters, and 0 where there is no such function. It has no numbers with a sign and no
/// look-ups.
pub fn decode_v1(alloc: Global, bytes: &[u8]) -> Result<Code, DecodeErr>
    ensures { IsDecoded (decoded_v1 bytes.now) result }
{
    decode_by(alloc, CodeVersion::First, bytes)
}
