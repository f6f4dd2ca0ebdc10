//! That what three miners tell who run a program, laid beside one another, is the client's view of the run.
//!
//! There is nothing to run here: definitions in `specs/`, and the law that follows from them.
#![tactic(auto)]

mod laws;

pub use laws::three_miners_tell_what_the_client_sees;
