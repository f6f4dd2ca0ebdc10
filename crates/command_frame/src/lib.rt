//! What every command of the program does: it reads files, decides, writes files, prints its text, and says why it stopped.
//!
//! A command's own part only reads and decides, over files, links to peers and other programs. It answers a [`Plan`] (the files to write,
//! the text, the status) or a [`Stop`]. What then happens to files, output and errors is done and proved here, once for all commands. A command
//! that has to write before it can decide calls [`write_files`] itself. The faults of a run by three programs ([`NodeFault`]) are each a line of the error
//! stream: of code that is read, of what peers send, of children, and of the texts that miners write.
#![tactic(auto)]

mod breach;
mod fault;
mod finish;
mod kinds;
mod object;
mod plan;
mod reading;
mod refusal;
mod saying;
mod status;
mod stop;
mod writing;

pub use breach::Breach;
pub use fault::NodeFault;
pub use finish::{finish_plan, write_files};
pub use kinds::{ByteFault, HelloField, StepFault};
pub use object::Object;
pub use plan::{Content, Plan, PlannedWrite};
pub use reading::read_file;
pub use refusal::Refusal;
pub use saying::{ended_status, say};
pub use status::Status;
pub use stop::{Stop, breached, file_stop, refused};
