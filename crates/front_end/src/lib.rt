//! The front end: from the bytes of a text to the tree of an accepted program, or the first fault of the text.
//!
//! `specs/Judgement.antt` says which text is which program and what a text is refused for, from the definitions of the tokens,
//! of the grammar and of the type rules. `specs/Refusals.antt` says what each layer's error becomes.
#![tactic(auto)]

mod laws;
mod program_err;
mod program_fault;
mod reading;

pub use laws::accepted_exactly_where_typed;
pub use program_err::ProgramErr;
pub use program_fault::ProgramFault;
pub use reading::read_program;
