//! Rows of what miners send, write and draw, as lines: frames, hellos and their digests, miners' texts that are read and written again, and the
//! words that sources of tapes give; and of three miners as programs of their own: runs over children and files in memory.
//!
//! Each case is a line, made of what the calls answer; of one run the calls of its children are told, too. A line costs no proof: the file `stdout`
//! says what must be printed, from the description of formats, texts and commands, worked by hand or by other programs (SHA-256 and ChaCha20 in Python).
#![tactic(auto)]

mod drawn;
mod link_bytes;
mod miner_texts;
mod trio_runs;

use anyhow::Result;
use row_files::Lines;
use std::alloc::{AllocError, Global};

// All lines.
fn told(alloc: Global) -> Result<String, AllocError> {
    let mut lines = Lines::new(alloc);
    link_bytes::tell(alloc, &mut lines);
    miner_texts::tell(alloc, &mut lines);
    drawn::tell(alloc, &mut lines);
    trio_runs::tell(alloc, &mut lines);
    lines.whole()
}

fn main(rt: HostRuntime) -> Result<()> {
    let text = told(rt.alloc())?;
    print!(rt; "{text}")?;
    Ok(())
}
