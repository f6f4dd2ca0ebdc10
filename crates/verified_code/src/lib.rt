//! Code that is verified: what each instruction names is there, its operands are of the kinds that it wants, and jumps lead where they may.
#![tactic(auto)]

mod fault;
mod kinds;
mod laws;
mod operators;
mod place;
mod settling;
mod step;
mod verified;
mod verifying;

pub use fault::{CodeProblem, VerifyErr};
pub use laws::{operators_are_those_of_signs, sound_code_is_verified, verified_code_is_sound};
pub use step::Step;
pub use verified::{Verified, verify};
