//! What three miners do with the gates of `gates`, and that they hold the values which the gates make.
//!
//! There is nothing to run here: definitions in `specs/`, and the laws that follow from them.
#![tactic(auto)]

mod laws;

pub use laws::{
    local_gates_keep_values, run_gates_are_sized, run_gates_are_sound_and_private,
    run_gates_draw_the_counted_words, run_gates_tell_nothing, runs_are_ready, runs_compute_values,
    simulators_read_own_shares_alone,
};
