//! The command `trio`: a program is compiled, its inputs are dealt, and three miners run it as programs of their own, whose texts are put together. The
//! command `join` puts together the texts that three miners wrote apart.
#![tactic(auto)]

mod join_planning;
mod laws;
mod planning;
mod preparing;
mod running;
mod stops;

pub use join_planning::{joined_plan, plan_join};
pub use laws::calls_tell_the_launch;
pub use planning::plan_trio;
pub use stops::{TextPaths, join_stop};
