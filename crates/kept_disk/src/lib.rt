//! A disk with one attached file at a time, what a crash may leave of each file, and a disk in memory that keeps a record of its calls.
//!
//! Until a sync succeeds, a crash may leave any bytes in the ranges that were given to writes since the last one; all else stays.
#![tactic(auto)]

mod disk;
mod disk_call;
mod disk_plan;
mod logged_file;
mod logged_files;
mod mem_disk;

pub use disk::Disk;
pub use disk_call::DiskCall;
pub use mem_disk::MemDisk;
