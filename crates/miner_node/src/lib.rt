//! A miner as a node: it serves its links, by the bytes of hellos and of frames.
#![tactic(auto)]

mod greeting;
mod laws;
mod node_err;
mod reading;
mod sending;
mod serving;
mod transfers;

pub use laws::{honest_peers_lead_to_the_end, nodes_do_as_their_miners};
pub use node_err::{NodeErr, ServeErr};
pub use serving::{Served, serve, serve_from};
