//! The text of a miner's view, and its reader.
#![tactic(auto)]

mod laws;
mod numbers;
mod pieces;
mod view;
mod writing;

pub use laws::{
    equal_texts_are_equal_views, first_wrong_line_is_named, views_are_read_again,
    views_end_as_runs_do, what_is_read_was_written,
};
pub use numbers::word_in;
pub use pieces::Pieces;
pub use view::{InputShare, Received, View};
pub use writing::write;
