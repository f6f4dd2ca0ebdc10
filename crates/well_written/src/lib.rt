//! What a program text is by its grammar alone: its numbers are words, and its breaks stand inside of loops.
#![tactic(auto)]

mod laws;

pub use laws::texts_are_well_written;
