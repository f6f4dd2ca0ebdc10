//! The commands of a miner's view and its tapes: `map` maps tapes to those that a view is made of, with the public files of it, `twin` to the tapes of a run of
//! other inputs, and `simulate` makes a view of what the miner may know alone.
#![tactic(auto)]

mod map;
mod simulate;
mod twin;

pub use map::{add_planned, opened_lines, plan_map, public_file};
pub use simulate::{plan_simulate, short_text};
pub use twin::{entry_text, plan_twin, twin_plan, word_text};
