//! What programs do: evaluation of typed programs in the clear, and by one who knows only what is public and what is opened.
//!
//! There is nothing to run here: definitions in `specs/`, and the laws that follow from them.
#![tactic(auto)]

mod laws;

pub use laws::{budgets_decide_alone, runs_keep_to_their_tapes, tapes_decide_alone};
