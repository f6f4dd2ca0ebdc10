use reached_instances::{ReachedInstances, Setting};
use std::alloc::Global;

/// Where an expression stands, and the instances that code may call, by their numbers. What is made there is kept in memory from
/// `alloc`.
#[derive(Clone, Copy)]
pub struct Around<'a> {
    pub alloc: Global,
    pub here: Setting<'a>,
    pub instances: &'a ReachedInstances,
}
