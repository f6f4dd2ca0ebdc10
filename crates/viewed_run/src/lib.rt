//! The run of a program by three miners, each by itself, whose messages are delivered in any order, and what each of them saw of it: its
//! shares of the private inputs, the words that it drew, the messages that came, in order of arrival, what was opened, and how it ended.
#![tactic(auto)]

mod code_laws;
mod laws;
mod parts;
mod seat;
mod seen;

pub use code_laws::code_views_are_views;
pub use delivered_run::{CourseErr, DeliveredRun, Delivery, DeliveryErr, run_delivered};
pub use laws::nets_agree;
pub use seen::{SeenRun, Views, run_seen};
