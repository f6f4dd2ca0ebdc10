//! The simulator of a miner's view of a program's run: it makes the view of what everybody may know of the inputs, of the words that are
//! opened, and of tapes, a budget and a delivery. None of its arguments holds a private word, and it reads no share of another miner.
//!
//! The run of one who is told what is opened says which gates run. The miner's input shares are made of the dealer's tape, the messages
//! that come to it of these shares, of the opened words and of the miners' tapes: each block's messages are made by the row of its protocol, and the miner's own
//! part takes them and goes on. Which links they come on is counted by the gates alone.
#![tactic(auto)]

mod block;
mod blocks;
mod dealing;
mod entries;
mod errors;
mod gate_by_gate;
mod laws;
mod learned;
mod made;
mod made_gates;
mod mails;
mod net;
mod rows;
mod script_laws;
mod script_sizes;
mod share_laws;
mod simulating;
mod simulator;
mod sizes;
mod sources;
mod telling;
mod view;
mod words;

pub use dealing::suffices;
pub use errors::SimulateErr;
pub use gate_by_gate::scripts;
pub use laws::{runs_are_simulated, told_runs_can_be_made};
pub use script_laws::few_words_fit;
pub use share_laws::made_shares_are_sized;
pub use simulating::{SimulatedRun, simulate};
pub use sizes::hidden_sizes;
pub use words::see_part;
