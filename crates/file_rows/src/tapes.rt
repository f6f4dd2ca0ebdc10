// Tapes of one miner that are read and written again, and tapes from a seed.
use crate::again::tell_again;
use row_files::Lines;
use std::alloc::{AllocError, Global};
use tape_file::{ReadErr, Tapes, from_seed, read_own, write_own};

const MOST: u64 = 16_777_216;

const OVER: u64 = 16_777_217;

// How many words a tape has, the numbers of its file, and the file's size.
const FILES: [(u64, &[u64], usize); 9] = [
    (0, &[0], 0),
    (2, &[2], 7),
    (OVER, &[OVER], 8),
    (3, &[2], 24),
    (2, &[3], 24),
    (2, &[2], 23),
    (2, &[2], 25),
    (MOST, &[MOST], 8),
    (2, &[2, 258, 1 << 63], 24),
];

// A file of these numbers, 8 bytes each and the lowest first, that is then cut or filled up with 7 to its size.
fn file_of(alloc: Global, numbers: &[u64], size: usize) -> Result<Vec<u8>, AllocError> {
    let mut bytes = Vec::new(alloc);
    for number in numbers {
        bytes.extend_from_slice(&number.to_le_bytes())?;
    }
    bytes.resize(size, 7)?;
    Ok(bytes)
}

// The words of a file, and whether it is written again as it was.
fn tell_file(alloc: Global, lines: &mut Lines, words: u64, file: &[u8]) {
    match read_own(alloc, file, words) {
        Ok(tape) => {
            write!(lines, "{tape:?}, ");
            tell_again(lines, write_own(alloc, &tape), file);
        }
        Err(ReadErr::BadTape { place }) => write!(lines, "bad at {place}"),
        Err(ReadErr::Memory) => lines.run_short(),
    }
    lines.add("\n");
}

fn tell_own(alloc: Global, lines: &mut Lines, words: u64, numbers: &[u64], size: usize) {
    write!(lines, "tape of {words}, {numbers:?} in {size} bytes: ");
    match file_of(alloc, numbers, size) {
        Ok(file) => tell_file(alloc, lines, words, &file),
        Err(AllocError) => lines.run_short(),
    }
}

// Words 0, 1 and 8 of a tape of 9.
fn tell_three(lines: &mut Lines, tape: &[u64]) {
    match tape {
        [first, second, _, _, _, _, _, _, last] => write!(lines, " {first} {second} {last};"),
        _ => lines.add(" another length;"),
    }
}

fn tell_tapes(lines: &mut Lines, tapes: &Tapes) {
    tell_three(lines, tapes.dealer());
    tell_three(lines, tapes.miner1());
    tell_three(lines, tapes.miner2());
    tell_three(lines, tapes.miner3());
}

fn tell_seed(alloc: Global, lines: &mut Lines, seed: [u8; 32]) {
    lines.add("seed:");
    match from_seed(alloc, seed, 9) {
        Ok(tapes) => tell_tapes(lines, &tapes),
        Err(AllocError) => lines.run_short(),
    }
    lines.add("\n");
}

const RISING: [u8; 32] = [
    0, 1, 2, 3, 4, 5, 6, 7, 8, 9, 10, 11, 12, 13, 14, 15, 16, 17, 18, 19, 20, 21, 22, 23, 24, 25,
    26, 27, 28, 29, 30, 31,
];

/// The lines of tapes of one miner, and of words from a seed.
pub fn tell(alloc: Global, lines: &mut Lines) {
    for (words, numbers, size) in FILES {
        tell_own(alloc, lines, words, numbers, size);
    }
    tell_seed(alloc, lines, [0; 32]);
    tell_seed(alloc, lines, RISING);
}
