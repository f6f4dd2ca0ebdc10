//! Three miners as programs of their own: they are started and waited for, and the texts that they write of their run are put together.
#![tactic(auto)]

mod asking;
mod child_err;
mod comparing;
mod difference;
mod files;
mod join_err;
mod joined;
mod joining;
mod launching;
mod paths;
mod running;
mod trio_err;

pub use child_err::ChildErr;
pub use difference::Difference;
pub use files::join_files;
pub use join_err::JoinErr;
pub use joined::Joined;
pub use joining::join;
pub use running::run;
pub use trio_err::TrioErr;
