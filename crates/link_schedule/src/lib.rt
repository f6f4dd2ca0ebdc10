//! Three miners joined by links, whose tapes are drawn from a source. Messages are delivered one by one, each the oldest of its link that
//! wasn't: in the order of a schedule, in the default order, or in one that a seed chooses.
#![tactic(auto)]

mod errors;
mod laws;
mod miners;
mod net;
mod orders;
mod schedules;

pub use errors::{DeliverErr, RunErr};
pub use laws::{deliveries_add_up, made_orders_are_those_of_the_scripts, what_came_was_sent};
pub use net::Net3;
