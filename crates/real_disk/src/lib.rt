//! The real disk: a file of the operating system, held under its lock, that a crash leaves as the disk's model says.
#![tactic(auto)]

mod real_disk;

pub use real_disk::RealDisk;
