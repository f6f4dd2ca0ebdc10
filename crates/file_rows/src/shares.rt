// Share files that are read and written again, with their public parts.
use input_share::{ShareFile, read_share, shape_part, write_share};
use row_files::Lines;
use std::alloc::{AllocError, Global};
use value_file::{read_public, write_public};

// A row, in which `~` stands for 65,535 zeros of a list, each with its comma.
fn spelled_out(alloc: Global, row: &str) -> Result<String, AllocError> {
    let zeros = "0,".repeat(alloc, 65_535)?;
    row.replace(alloc, '~', &zeros)
}

// The bytes of a file, or that they are those that were read.
fn tell_bytes(lines: &mut Lines, written: Result<Vec<u8>, AllocError>, read: &[u8]) {
    match written {
        Ok(written) if written.as_slice() == read => lines.add(" the same"),
        Ok(written) => write!(lines, " {}", str::from_utf8(&written).unwrap_or("no text")),
        Err(AllocError) => lines.run_short(),
    }
}

// A share file as it is written again, and the public file of it.
fn tell_file(alloc: Global, lines: &mut Lines, file: &ShareFile, read: &[u8]) {
    tell_bytes(lines, write_share(alloc, file), read);
    match shape_part(alloc, file) {
        Ok(part) => tell_bytes(lines, write_public(alloc, &part), read),
        Err(AllocError) => lines.run_short(),
    }
}

// What is read of a miner's share file.
fn tell_share(alloc: Global, lines: &mut Lines, file: &[u8], miner: u8) {
    write!(lines, "share {miner}:");
    match read_share(alloc, file, miner) {
        Ok(share) => tell_file(alloc, lines, &share, file),
        Err(refusal) => write!(lines, " {refusal:?}"),
    }
}

// What is read of a public file, written again.
fn tell_public(alloc: Global, lines: &mut Lines, file: &[u8]) {
    lines.add("public:");
    match read_public(alloc, file) {
        Ok(part) => tell_bytes(lines, write_public(alloc, &part), file),
        Err(refusal) => write!(lines, " {refusal:?}"),
    }
}

fn tell_row(alloc: Global, lines: &mut Lines, row: &str) {
    match row.split_once(' ') {
        Some(("public", file)) => tell_public(alloc, lines, file.as_bytes()),
        Some((miner, file)) => {
            let miner = miner.parse::<u8>().unwrap_or(0);
            tell_share(alloc, lines, file.as_bytes(), miner);
        }
        None => lines.add("no row"),
    }
    lines.add("\n");
}

/// A line of each row: a miner and its share file, or `public` and a public file.
pub fn tell(alloc: Global, lines: &mut Lines, rows: &[u8]) {
    for row in str::from_utf8(rows).unwrap_or("").lines() {
        match spelled_out(alloc, row) {
            Ok(row) => tell_row(alloc, lines, row.as_str()),
            Err(AllocError) => lines.run_short(),
        }
    }
}
