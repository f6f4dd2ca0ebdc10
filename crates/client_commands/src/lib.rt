//! The commands of the client's view and its tapes: `client-map` maps tapes to those that the view is made of, with the public files of it,
//! `client-twin` to the tapes of a run of other inputs, and `client-simulate` makes the view of what the client may know alone.
#![tactic(auto)]

mod map;
mod simulate;
mod twin;

pub use map::plan_client_map;
pub use simulate::plan_client_simulate;
pub use twin::plan_client_twin;
