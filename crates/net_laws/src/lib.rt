//! Nets of three miners. Honest miners: along any deliveries none refuses a message, and one that hasn't ended waits for a message that the run has. The net of
//! a run, that of its views and that of the simulator are one, and the links of the run are the order of a view's messages.
//!
//! There is nothing to run here: definitions in `specs/`, and the laws that follow from them.
#![tactic(auto)]

mod honest_nets;
mod one_net;

pub use honest_nets::{honest_nets_go_on, honest_nodes_go_on};
pub use one_net::{
    run_views_and_simulator_have_one_net, runs_are_told_by_their_miners,
    views_have_the_messages_of_links,
};
