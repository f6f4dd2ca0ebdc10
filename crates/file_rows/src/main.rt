//! Rows of files, texts and outside objects that no whole call of the program shows, as lines: share files and tapes of one miner
//! that are read, words from a seed, names, ends and faults as they are written, code and views that are read, streams that are
//! interrupted, and the objects in memory.
//!
//! Each case is a line, made of what the calls answer; share files stand in `data/`. A line costs no proof: the file `stdout` says
//! what must be printed, from the description of the files, worked by hand or by other programs.
#![tactic(auto)]

mod again;
mod codes;
mod shares;
mod stand_ins;
mod streams;
mod tapes;
mod texts;
mod views;

use anyhow::Result;
use row_files::Lines;
use std::alloc::{AllocError, Global};
use std::fs;

// All lines, those of share files first.
fn told(alloc: Global, rows: &[u8]) -> Result<String, AllocError> {
    let mut lines = Lines::new(alloc);
    shares::tell(alloc, &mut lines, rows);
    stand_ins::tell(alloc, &mut lines);
    streams::tell(alloc, &mut lines);
    tapes::tell(alloc, &mut lines);
    texts::tell(alloc, &mut lines);
    codes::tell(alloc, &mut lines);
    views::tell(alloc, &mut lines);
    lines.whole()
}

fn main(rt: HostRuntime) -> Result<()> {
    let rows = fs::read(&rt, "shares.txt")?;
    let text = told(rt.alloc(), &rows)?;
    print!(rt; "{text}")?;
    Ok(())
}
