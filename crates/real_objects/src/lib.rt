//! What the program reaches outside itself: files and streams of the operating system, links over TCP, and child
//! processes.
#![tactic(auto)]

mod attempts;
mod bounded;
mod children;
mod files;
mod links;
mod sink;
mod standing;
mod vectors;

pub use bounded::read_within;
pub use children::RealSpawner;
pub use files::RealFiles;
pub use links::RealLinks;
pub use sink::RealSink;
pub use standing::open_streams;
