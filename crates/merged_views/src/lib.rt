//! The messages of three views: they are those of one run exactly where each is the next of its link, none is missing, and a schedule that goes
//! as far as it can leaves none of them.
//!
//! There is nothing to run here: definitions in `specs/`, and the laws that follow from them.
#![tactic(auto)]

mod laws;

pub use laws::{
    brought_messages_are_next, next_messages_are_brought, nothing_is_left,
    what_is_left_is_unreached,
};
