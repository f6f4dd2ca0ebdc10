//! The command `miner`: one of three miners runs code on its shares, and serves the links to the other two.
//!
//! It reads and checks the code, its share file and the length of its own tape, joins its peers, and says what is to be written: its text. The words
//! of its tape are read from the file where its gates want them.
#![tactic(auto)]

mod code_file;
mod files;
mod node_stops;
mod opened_file;
mod own_tape;
mod planning;
mod playing;

pub use code_file::{CodeFile, read_code_file};
pub use files::{MinerFiles, read_files};
pub use opened_file::TapeFile;
pub use own_tape::open_own_tape;
pub use planning::plan_miner;
