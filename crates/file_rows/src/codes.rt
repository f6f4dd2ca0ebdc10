// Code that is read, written again and verified.
use crate::again::tell_again;
use bytecode::{Code, DecodeErr, DecodeFault, FaultKind, decode, encode};
use row_files::Lines;
use std::alloc::{AllocError, Global};
use verified_code::{CodeProblem, verify};

// The code of a `main` with one instruction, but this.
const HEAD: [u8; 16] = [83, 67, 51, 80, 2, 0, 0, 1, 0, 0, 0, 255, 0, 0, 1, 0];

// The same of the first version, and of one that there isn't.
const OTHERS: [[u8; 17]; 2] = [
    [83, 67, 51, 80, 1, 0, 0, 1, 0, 0, 0, 255, 0, 0, 1, 0, 24],
    [83, 67, 51, 80, 3, 0, 0, 1, 0, 0, 0, 255, 0, 0, 1, 0, 24],
];

// What stands after it: the end of the function, with a byte more, and cut off; a number that no instruction has; the function gives
// back a register, where it has none. Then calls: of itself with no argument and with one, of a function that isn't there with no argument,
// with one, and with more than there are bytes.
const ENDINGS: [&[u8]; 10] = [
    &[24],
    &[24, 0],
    &[],
    &[26],
    &[23, 0, 0],
    &[22, 0, 0, 255, 255, 0, 0, 9, 0, 0, 0],
    &[22, 0, 0, 255, 255, 1, 0, 0, 0, 9, 0, 0, 0],
    &[22, 1, 0, 255, 255, 0, 0, 9, 0, 0, 0],
    &[22, 1, 0, 255, 255, 1, 0, 0, 0, 9, 0, 0, 0],
    &[22, 0, 0, 255, 255, 255, 255, 0, 0],
];

fn kind_name(kind: FaultKind) -> &'static str {
    match kind {
        FaultKind::Truncated => "truncated",
        FaultKind::BadTag => "a bad tag",
        FaultKind::BadVersion => "a bad version",
        FaultKind::Trailing => "trailing",
    }
}

fn problem_name(problem: CodeProblem) -> &'static str {
    match problem {
        CodeProblem::BadRegister => "a bad register",
        CodeProblem::BadKind => "a bad kind",
        CodeProblem::BadJump => "a bad jump",
    }
}

// Whether code is written again as it was, and what is wrong with it.
fn tell_code(alloc: Global, lines: &mut Lines, code: Code, bytes: &[u8]) {
    tell_again(lines, encode(alloc, &code), bytes);
    match verify(code) {
        Ok(_) => lines.add(", verified\n"),
        Err((_, fault)) => write!(
            lines,
            ", {} in function {} at instruction {}\n",
            problem_name(fault.problem),
            fault.function,
            fault.instruction
        ),
    }
}

// What these bytes are read as.
fn tell_bytes(alloc: Global, lines: &mut Lines, bytes: &[u8]) {
    write!(lines, "code of {} bytes: ", bytes.len());
    match decode(alloc, bytes) {
        Ok(code) => tell_code(alloc, lines, code, bytes),
        Err(DecodeErr::Refused(DecodeFault { kind, place })) => {
            write!(lines, "{} at {place}\n", kind_name(kind));
        }
        Err(DecodeErr::Memory) => lines.run_short(),
    }
}

/// The lines of code.
pub fn tell(alloc: Global, lines: &mut Lines) {
    for ending in ENDINGS {
        match [&HEAD[..], ending].concat(alloc) {
            Ok(bytes) => tell_bytes(alloc, lines, &bytes),
            Err(AllocError) => lines.run_short(),
        }
    }
    for other in OTHERS {
        tell_bytes(alloc, lines, &other);
    }
}
