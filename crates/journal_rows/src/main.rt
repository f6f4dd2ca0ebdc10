//! Rows of a miner's journal over a disk in memory, as lines: what files are opened as, their records, and what a process or a machine that stops at any
//! call of the disk leaves to the next one.
//!
//! Each case is a line, made of what the calls answer. A line costs no proof: the file `stdout` says what must be printed, worked by hand from the
//! description of the file.
#![tactic(auto)]

mod course;
mod images;
mod openings;
mod records;
mod stops;

use anyhow::Result;
use row_files::Lines;
use std::alloc::{AllocError, Global};

// All lines.
fn told(alloc: Global) -> Result<String, AllocError> {
    let mut lines = Lines::new(alloc);
    openings::tell(alloc, &mut lines);
    records::tell(alloc, &mut lines);
    stops::tell(alloc, &mut lines);
    lines.whole()
}

fn main(rt: HostRuntime) -> Result<()> {
    let text = told(rt.alloc())?;
    print!(rt; "{text}")?;
    Ok(())
}
