// A program to run, with its inputs and tapes.
ghost use Rattle.std.specs.Prelude.{◌≡◌, IfOk, string_bytes};
ghost use Rattle.value_file.specs.Input.{AreInputs};
ghost use Rattle.tape_file.specs.Seeds.{seed_tapes};
ghost use Rattle.workload.specs.Load.{load_program, load_entries, load_seed};

use crate::inputs::load_inputs;
use byteorder::{ByteOrder, LittleEndian};
use std::alloc::{AllocError, Global};
use tape_file::{Tapes, from_seed};
use value_file::Inputs;

/// How many words each of the four tapes has.
const TAPE_WORDS: u64 = 131_072;

const PROGRAM: &str = r#"import stdlib; import shared3p; domain p shared3p;
void main() { p uint64[[1]] a = argument("a"); p uint64[[1]] b = argument("b");
publish("dot", declassify(sum(a * b))); publish("less", declassify(sum((uint64)(a < b)))); }
"#;

/// A program to run, with its inputs and tapes.
#[derive(Drop)]
pub struct Workload {
    pub program: String,
    pub inputs: Inputs,
    pub tapes: Tapes,
}

/// The seed whose first 8 bytes are the number, the lowest first; the others are 0.
fn load_seed(number: u64) -> [u8; 32]
    ensures { result ≡ load_seed number }
{
    let mut seed = [0; 32];
    LittleEndian::write_u64(&mut seed, number);
    seed
}

/// The workload of this number: a program that multiplies and compares two private arrays a and b, both of
/// n = 1 + number mod 600 words, a[j] being j (number + 1) and b[j] being j + number, both mod 2^64, and tapes of
/// 131,072 words each from the seed whose first 8 bytes are the number, the lowest first, and whose other bytes are 0.
pub fn make(alloc: Global, number: u64) -> Result<Workload, AllocError>
    ensures program { IfOk result (λ load. string_bytes load.program ≡ load_program) }
    ensures inputs { IfOk result (λ load. load.inputs ≡ load_entries number) }
    ensures form { IfOk result (λ load. AreInputs load.inputs) }
    ensures tapes { IfOk result (λ load. load.tapes ≡ seed_tapes (load_seed number) 131072) }
{
    let program = String::from_str(alloc, PROGRAM)?;
    let inputs = load_inputs(alloc, number)?;
    let tapes = from_seed(alloc, load_seed(number), TAPE_WORDS)?;
    Ok(Workload {
        program,
        inputs,
        tapes,
    })
}
