// Sources of tapes: words that are drawn, and files that are no tapes.
ghost use Rattle.std.specs.Prelude.{◌≤◌};

use outside::{Files, MemFiles, TapeSource};
use row_files::Lines;
use std::alloc::{AllocError, Global};
use tape_file::from_seed;
use tape_sources::{FileTapes, HeldTapes, OwnTape, SeedTapes, read_length, read_lengths};

// Tapes of 1, 2, 0 and 3 words.
const FOUR: [u64; 10] = [1, 2, 0, 3, 100, 201, 202, 1 << 63, 402, 403];

// A tape of 3 words in a file of its own.
const OWN: [u64; 4] = [3, 258, 1 << 63, 7];

// What is left of the first of these files where it is cut after the dealer's word.
const CUT: [u8; 40] = [
    1, 0, 0, 0, 0, 0, 0, 0, 2, 0, 0, 0, 0, 0, 0, 0, 0, 0, 0, 0, 0, 0, 0, 0, 3, 0, 0, 0, 0, 0, 0, 0,
    100, 0, 0, 0, 0, 0, 0, 0,
];

// Files of four tapes that are none: lengths that are cut off, a second and a fourth tape that are too long, a word too few and one too many.
const WRONG: [&[u64]; 5] = [
    &[0, 0, 0],
    &[16_777_216, 16_777_217, 16_777_217, 0],
    &[0, 0, 0, 16_777_217],
    &[0, 1, 0, 1, 5],
    &[0, 0, 0, 0, 5],
];

// A store with a file of these words, of which some calls are to fail.
fn store(alloc: Global, words: &[u64], failing: &[u64]) -> Result<MemFiles, AllocError> {
    let mut bytes = Vec::new(alloc);
    for word in words {
        bytes.extend_from_slice(&word.to_le_bytes())?;
    }
    let mut files = MemFiles::new(alloc, failing.to_vec(alloc)?);
    files.place(alloc, "t", &bytes)?;
    Ok(files)
}

// The next words of a party's tape, two at most, and how many are left then.
fn add_drawn<T: TapeSource>(lines: &mut Lines, tapes: &mut T, party: u8)
    requires { party ≤ 3 }
{
    let mut into = [0; 2];
    let count = tapes.left(party).min(2) as usize;
    match tapes.take(party, &mut into[..count]) {
        Ok(()) => write!(lines, " {:?}", &into[..count]),
        Err(failed) => write!(lines, " {failed:?}"),
    }
    write!(lines, " {}", tapes.left(party));
}

// Two draws by the third miner, and one by each other party.
fn tell_draws<T: TapeSource>(lines: &mut Lines, tapes: &mut T) {
    for party in [3, 0, 1, 2, 3] {
        add_drawn(lines, tapes, party);
    }
    lines.add("\n");
}

fn tell_four<F: Files>(lines: &mut Lines, files: &mut F) {
    match read_lengths(files, "t") {
        Ok(lengths) => tell_draws(lines, &mut FileTapes::new(files, "t", lengths)),
        Err(error) => write!(lines, " {error:?}\n"),
    }
}

// The same of a file that is cut once its lengths were read, so that it ends before the size that it said.
fn tell_cut<F: Files>(alloc: Global, lines: &mut Lines, files: &mut F) {
    match (read_lengths(files, "t"), files.write(alloc, "t", &CUT)) {
        (Ok(lengths), Ok(())) => tell_draws(lines, &mut FileTapes::new(files, "t", lengths)),
        _ => lines.run_short(),
    }
}

fn tell_own<F: Files>(lines: &mut Lines, files: &mut F, wanted: u64) {
    match read_length(files, "t", wanted) {
        Ok(size) => tell_draws(lines, &mut OwnTape::new(files, "t", 3, wanted, size)),
        Err(error) => write!(lines, " {error:?}\n"),
    }
}

// The line of a file of four tapes.
fn tell_file(lines: &mut Lines, name: &str, files: Result<MemFiles, AllocError>) {
    lines.add(name);
    match files {
        Ok(mut files) => tell_four(lines, &mut files),
        Err(AllocError) => lines.run_short(),
    }
}

// The line of a file of four tapes that is cut.
fn tell_cut_file(alloc: Global, lines: &mut Lines, files: Result<MemFiles, AllocError>) {
    lines.add("cut after its lengths were read:");
    match files {
        Ok(mut files) => tell_cut(alloc, lines, &mut files),
        Err(AllocError) => lines.run_short(),
    }
}

// The line of one party's file.
fn tell_own_file(lines: &mut Lines, wanted: u64, files: Result<MemFiles, AllocError>) {
    lines.add("own tape:");
    match files {
        Ok(mut files) => tell_own(lines, &mut files, wanted),
        Err(AllocError) => lines.run_short(),
    }
}

// Tapes of zeros' seed, made word by word and all at once.
fn tell_seeds(alloc: Global, lines: &mut Lines) {
    lines.add("seeded:");
    tell_draws(lines, &mut SeedTapes::new([0; 32], 3));
    lines.add("held:");
    match from_seed(alloc, [0; 32], 3) {
        Ok(tapes) => tell_draws(lines, &mut HeldTapes::new(tapes)),
        Err(AllocError) => lines.run_short(),
    }
}

/// The lines of sources of tapes.
pub fn tell(alloc: Global, lines: &mut Lines) {
    // Call 0 is for the size, 1 to 5 are for the lengths, as 7 bytes are read at a time, and 6 to 8 for the first draw.
    tell_file(lines, "four tapes:", store(alloc, &FOUR, &[]));
    tell_file(lines, "a draw fails:", store(alloc, &FOUR, &[7]));
    tell_cut_file(alloc, lines, store(alloc, &FOUR, &[]));
    tell_file(lines, "no size:", store(alloc, &FOUR, &[0]));
    for words in WRONG {
        tell_file(lines, "no tapes:", store(alloc, words, &[]));
    }
    tell_own_file(lines, 3, store(alloc, &OWN, &[]));
    tell_own_file(lines, 2, store(alloc, &OWN, &[]));
    tell_own_file(lines, 3, store(alloc, &OWN[..3], &[]));
    tell_own_file(lines, 3, store(alloc, &OWN, &[1]));
    tell_seeds(alloc, lines);
}
