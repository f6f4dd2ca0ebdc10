//! What the client sees of a program's run: its view, the tapes that this is made of and the way back, and the twins.
#![tactic(auto)]

mod alike;
mod given;
mod maps;
mod seeing;
mod twin_err;
mod twinning;
mod viewing;

pub use alike::published_of;
pub use maps::{MappedRun, from_sim, map_run, to_sim};
pub use seeing::sightings;
pub use tape_twin::Both;
pub use twin_err::TwinErr;
pub use twinning::twin;
pub use viewing::view;
