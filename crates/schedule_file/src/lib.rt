//! The text of a schedule, a line for each link, and its reader.
#![tactic(auto)]

mod laws;
mod read_err;
mod reading;
mod writing;

pub use laws::{first_wrong_line_is_named, schedules_are_read_again, what_is_read_was_written};
pub use read_err::ReadErr;
pub use reading::read;
pub use writing::write;
