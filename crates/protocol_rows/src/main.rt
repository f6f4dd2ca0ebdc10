//! Rows of single protocols, gates, plans, joint runs and single miners, as lines: messages, shares, values and refusals; and what kernels make
//! of lists of words of some lengths in both rings, and truth values packed into words. They are compared with those that were worked out by hand.
//!
//! Each case is a line, made of what the calls answer. A line costs no proof: the file `stdout` says what must be printed.
#![tactic(auto)]

mod blocks;
mod converting;
mod gate_lists;
mod gate_plans;
mod joint_runs;
mod kernels;
mod lines;
mod miners;
mod multiplying;
mod opening;
mod resharing;
mod rings;
mod splitting;

use anyhow::Result;
use row_files::Lines;
use std::alloc::{AllocError, Global};

// What single protocols do.
fn tell_protocols(lines: &mut Lines) {
    resharing::tell(lines);
    opening::tell(lines);
    splitting::tell(lines);
    converting::tell(lines);
    multiplying::tell(lines);
}

// All lines.
fn told(alloc: Global) -> Result<String, AllocError> {
    let mut lines = Lines::new(alloc);
    rings::tell(&mut lines);
    blocks::tell(alloc, &mut lines);
    tell_protocols(&mut lines);
    gate_lists::tell(alloc, &mut lines);
    gate_plans::tell(alloc, &mut lines);
    joint_runs::tell(alloc, &mut lines);
    miners::tell(alloc, &mut lines);
    kernels::tell(alloc, &mut lines);
    lines.whole()
}

fn main(rt: HostRuntime) -> Result<()> {
    let text = told(rt.alloc())?;
    print!(rt; "{text}")?;
    Ok(())
}
