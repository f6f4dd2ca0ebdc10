//! The dealing of a run's inputs: each miner's share file, in which a private value is replaced by words that say nothing
//! of it without the other two files.
#![tactic(auto)]

mod add_up;
mod bounds;
mod dealing;
mod entry;
mod forms;
mod reading;
mod shapes;
mod share_file;
mod values;
mod words;
mod writing;

pub use add_up::shares_add_up;
pub use bounds::{
    public_parts_are_read_again, read_entries_are_of_words, read_shares_are_of_words,
};
pub use dealing::{DealErr, Dealt, deal, draws, need};
pub use entry::{Part, ShareEntry, Shared};
pub use forms::dealt_files_are_writable;
pub use reading::read_share;
pub use shapes::{dealing_keeps_shapes, shape_part};
pub use share_file::ShareFile;
pub use values::{shared_as, shared_size};
pub use words::{see_entries, see_value, see_words};
pub use writing::write_share;
