//! What the hosts of three miners get: the bytes that come on a link to one begin the hello and the frames of the messages that its miner's view has there,
//! and so of the simulator's view. Its share file and its tape have no more than the view either.
//!
//! There is nothing to run here: definitions in `specs/`, and the laws that follow from them.
#![tactic(auto)]

mod laws;

pub use laws::{hosts_see_their_views, nodes_see_their_views};
