//! Rows of the language that no whole call of the program shows, as lines: the tokens and trees that texts are read as, with the place
//! of each node, the instances that are checked and reached, typed trees, runs with their gates, in the clear and blind, tapes that a
//! view is made of, and how many registers code has.
//!
//! Each case is a line, made of what the calls answer; a run takes a few. A line costs no proof: the file `stdout` says what must be
//! printed, worked out by hand. What whole calls show stands in the row files of the crate `rows`.
#![tactic(auto)]

mod codes;
mod instances;
mod mapping;
mod runs;
mod sources;
mod tokens;
mod trees;
mod typed_trees;
mod values;

use anyhow::Result;
use row_files::Lines;
use std::alloc::{AllocError, Global};

// All lines.
fn told(alloc: Global) -> Result<String, AllocError> {
    let mut lines = Lines::new(alloc);
    tokens::tell(alloc, &mut lines);
    trees::tell(alloc, &mut lines);
    instances::tell(alloc, &mut lines);
    typed_trees::tell(alloc, &mut lines);
    values::tell(alloc, &mut lines);
    runs::tell(alloc, &mut lines);
    mapping::tell(alloc, &mut lines);
    codes::tell(alloc, &mut lines);
    lines.whole()
}

fn main(rt: HostRuntime) -> Result<()> {
    let text = told(rt.alloc())?;
    print!(rt; "{text}")?;
    Ok(())
}
