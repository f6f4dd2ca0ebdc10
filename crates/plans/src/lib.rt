//! Plans: what is computed of shared numbers by a list of gates. `equality` tests a difference for zero, `bit_extract` turns a value shared by
//! sums into one shared by xor, `compare` tells which number is less.
#![tactic(auto)]

pub mod bit_extract;
pub mod compare;
pub mod equality;
