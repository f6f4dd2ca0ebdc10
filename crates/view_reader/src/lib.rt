//! The readers of a miner's view and of a file of opened values.
//!
//! `view_text` says what the text of a view is read as. Here is the code that reads so, and what other texts have in common with a view's:
//! lines, words, names, numbers and ends.
#![tactic(auto)]

mod elements;
mod ends;
mod kinds;
mod laws;
mod limited;
mod lines;
mod opened;
mod parts;
mod place;
mod published;
mod read_err;
mod reading;
mod view_reading;
mod words;

pub use elements::{elements_in, push_words};
pub use ends::end_in;
pub use laws::{
    first_wrong_opening_is_named, opened_values_are_read_again,
    opened_values_that_are_read_were_written,
};
pub use limited::name_in;
pub use lines::{lines_in, words_in_line};
pub use opened::read_opened;
pub use published::read_published;
pub use read_err::ReadErr;
pub use view_reading::read;
pub use words::{is_word, words_in};
