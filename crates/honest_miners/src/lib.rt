//! Three miners that run as programs of their own: together they do what the program's evaluation does.
//!
//! There is nothing to run here: definitions in `specs/`, and the laws that follow from them. First by the bytes on their links: what is read of bytes that begin
//! frames, one miner whose peers send all, three, and the texts that these write; then by the command `miner`, which writes its part of what evaluation tells.
#![tactic(auto)]

mod frame_laws;
mod laws;
mod node_laws;
mod served_laws;
mod text_laws;

pub use frame_laws::{frames_join_nodes, fronts_of_frames_are_frames, fronts_of_hellos_are_hellos};
pub use laws::{honest_miners_write_their_text, three_miners_answer_the_run};
pub use node_laws::honest_nodes_end_as_evaluated;
pub use served_laws::three_served_miners;
pub use text_laws::texts_of_a_run_are_its_text;
