//! The joint run of a list of gates, computed: three miners in one place, gate by gate and block by block.
//!
//! It is plain and slow, and is there so that other runs can be compared with it. What a joint run is stands in
//! `protocol_model` and `shared_gates`; the contract of `joint_run` is that it computes this run where there is one, and
//! else says why there is none.
#![tactic(auto)]

mod blocks;
mod joint;
mod joint_err;
mod outputs;
mod own_operands;
mod run;
mod shares;
mod step;
mod tapes;
mod traffic;
mod transcript;
mod whole;

pub use blocks::add_block;
pub use gate_exchanges::{Exchange, Exchanged, as_exchanged, suits};
pub use joint::{are_even, joint_run};
pub use joint_err::JointErr;
pub use outputs::{Outputs, Shared};
pub use own_operands::{Operands, Own};
pub use run::{JointRun, operands};
pub use shares::SharedValues;
pub use step::run_gate;
pub use tapes::Tapes;
pub use traffic::Traffic;
pub use transcript::Transcript;
pub use whole::add_gate;
