//! What three miners do with a list of gates: the joint run, each miner's view of it, and the words that a view is made of;
//! and what any three nodes do that finish a run, under every schedule and from any state.
//!
//! There is nothing to run here: definitions in `specs/`, and the laws that follow from them.
#![tactic(auto)]

mod laws;

pub use laws::{
    accepted_orders_are_complete, every_order_is_the_run, gates_keep_other_values,
    gates_move_along_their_scripts, gates_run_together, made_orders_are_accepted,
    messages_come_in_order, more_mail_extends, schedules_are_counted, tapes_correspond,
    three_nodes_agree, views_are_made,
};
