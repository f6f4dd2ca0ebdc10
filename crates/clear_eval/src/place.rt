// Where a statement or an expression stands.
use reached_instances::Setting;
use std::alloc::Global;
use value_steps::World;

/// Where a statement stands: among the functions of a program, in the body of one of them, whose result is private or not, with
/// room for so many calls inside one another.
#[derive(Clone, Copy)]
pub struct StatementContext<'a> {
    pub here: Setting<'a>,
    pub private_result: bool,
    pub depth: usize,
}

/// What is around a statement or an expression: what stays the same in the run, and where it stands. What is made there is kept in
/// memory from `alloc`.
#[derive(Clone, Copy)]
pub struct Around<'w, 'a> {
    pub alloc: Global,
    pub world: &'w World<'w>,
    pub at: StatementContext<'a>,
}
