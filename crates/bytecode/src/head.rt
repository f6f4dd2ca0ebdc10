// The head of a function.
ghost use Rattle.std.specs.Prelude.{◌≤◌, length};

use crate::kind::Kind;

/// What is told of a function before all bodies.
#[derive(Drop)]
pub(crate) struct Head {
    pub(crate) parameters: u16,
    pub(crate) gives: Option<Kind>,
    pub(crate) registers: Vec<Kind>,
    pub(crate) instructions: u16,
    pub(crate) ghost few: { length registers.items ≤ 65535 },
}
