//! The tapes that a miner's view of a program's run is made of, the way back, and the twins: tapes with which other private inputs give
//! the same view.
//!
//! What the maps are, and what they keep, stands in `protocol_model` and `program_views`, row by row in each protocol: the gates of the run in the clear say how
//! the words are mapped. Here a run's gates are walked: each block's words go through its row, and the three miners' values are computed beside, since a row reads
//! their shares.
#![tactic(auto)]

mod alike;
mod bits;
mod blockwise;
mod client_rows;
mod client_tapes;
mod conversion;
mod dealer;
mod gate;
mod looking;
mod made;
mod mapped_run;
mod maps;
mod own;
mod row;
mod rows;
mod running;
mod taking;
mod tape_maps;
mod twin_err;
mod twinning;
mod walk;
mod way;

pub use alike::{first_difference, public_difference};
pub use client_tapes::{from_client, to_client};
pub use dealer::seen_dealer;
pub use joint_steps::{dealt_values, memory_wanting};
pub use mapped_run::{MappedRun, map_run};
pub use maps::{from_sim, to_sim};
pub use running::report_on;
pub use twin_err::TwinErr;
pub use twinning::{Both, twin};
