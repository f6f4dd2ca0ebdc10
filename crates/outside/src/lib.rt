//! What a program reaches outside itself: files, sinks of bytes, links to peers, other programs, and the words of
//! tapes that are drawn in a run.
//!
//! Each trait counts the faults of its object, tells what the object holds where that is known, and says
//! whether the object is steady, that is whether its calls fail only for a cause of the caller's own. The
//! `Mem` types stand in memory, for tests.
#![tactic(auto)]

mod error;
mod fault_plan;
mod file_call;
mod files;
mod held_files;
mod link_call;
mod links;
mod mem_file;
mod mem_files;
mod mem_links;
mod mem_peer;
mod mem_sink;
mod mem_spawner;
mod sink;
mod spawn_call;
mod spawner;
mod tape_source;

pub use error::{Failed, FileErr, SpawnErr};
pub use file_call::{FileAction, FileCall};
pub use files::Files;
pub use held_files::HeldFiles;
pub use link_call::LinkCall;
pub use links::Links;
pub use mem_files::MemFiles;
pub use mem_links::MemLinks;
pub use mem_sink::MemSink;
pub use mem_spawner::MemSpawner;
pub use sink::{Sink, put_all};
pub use spawn_call::SpawnCall;
pub use spawner::Spawner;
pub use tape_source::TapeSource;
