//! What a typed tree promises to whoever reads it: the typed tree of each program that the checker accepts is well typed.
#![tactic(auto)]

mod laws;

pub use laws::accepted_programs_are_well_typed;
