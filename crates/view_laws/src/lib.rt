//! What a miner sees of a program's run is a view of its form: the file of it is read as it, and equal files are of equal views. Each end of a
//! program's evaluation can be written: its numbers have room in the text of a view.
//!
//! There is nothing to run here: definitions in `specs/`, and the laws that follow from them.
#![tactic(auto)]

mod ending_laws;
mod laws;

pub use ending_laws::{ends_can_be_written, events_are_named};
pub use laws::{
    equal_view_texts_are_of_equal_views, opened_files_are_read_again, runs_open_what_they_tell,
    view_texts_are_read_again, views_are_of_their_form,
};
