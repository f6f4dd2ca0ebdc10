//! Three nodes of which it is only known that what each has received begins what its peers have sent.
//!
//! There is nothing to run here: definitions in `specs/`, and the law that follows from them.
#![tactic(auto)]

mod laws;

pub use laws::three_nodes;
