// Why texts are not put together, as a command says it.
ghost use Rattle.std.specs.Prelude.{◌≡◌, IfOk, string_bytes};
ghost use Rattle.command_frame.specs.Stops.{IsBreachFor};
ghost use Rattle.command_frame.specs.Faults.{node_fault_line};
ghost use Rattle.proto_core.specs.Parties.{of_three};
ghost use Rattle.trio_command.specs.Join.{bad_text, texts_differ, IsJoinStop};

use command_frame::{NodeFault, Status, Stop, breached, file_stop};
use proto_core::Number;
use std::alloc::{AllocError, Global};
use trio::JoinErr;

/// The paths of the texts of miners 1, 2 and 3.
#[derive(Clone, Copy)]
pub struct TextPaths<'a> {
    pub first: &'a str,
    pub second: &'a str,
    pub third: &'a str,
}

impl<'a> TextPaths<'a> {
    // The path of this miner's text.
    fn of(&self, miner: Number) -> &'a str
        ensures { result.now ≡ of_three self.now.first.now self.now.second.now self.now.third.now miner }
    {
        match miner {
            Number::One => self.first,
            Number::Two => self.second,
            Number::Three => self.third,
        }
    }
}

// The line of a fault.
fn fault_line(alloc: Global, fault: NodeFault) -> Result<String, AllocError>
    ensures { IfOk result (λ line. string_bytes line ≡ node_fault_line fault) }
{
    format!(in alloc; "{fault}")
}

// That this line of a miner's text is wrong.
#[tactic(auto, unfolding(crate::specs::Join::bad_text))]
fn bad_text_stop(alloc: Global, miner: Number, line: u64) -> Stop
    ensures { IsBreachFor (bad_text miner line) result }
{
    breached(
        Status::Child,
        fault_line(alloc, NodeFault::BadText { miner, line }),
    )
}

// That two texts differ in this line.
#[tactic(auto, unfolding(crate::specs::Join::texts_differ))]
fn differing_stop(alloc: Global, line: u64) -> Stop
    ensures { IsBreachFor (texts_differ line) result }
{
    breached(
        Status::Disagree,
        fault_line(alloc, NodeFault::Disagree { line }),
    )
}

/// Why texts at these paths are not put together: one can't be read, is of another form, or differs from the first miner's.
pub fn join_stop(alloc: Global, paths: &TextPaths<'_>, error: &JoinErr) -> Stop
    ensures { IsJoinStop (of_three paths.now.first.now paths.now.second.now paths.now.third.now) error.now result }
{
    match error {
        JoinErr::File { miner } => file_stop(alloc, paths.of(*miner)),
        JoinErr::BadText { miner, line } => bad_text_stop(alloc, *miner, *line),
        JoinErr::Disagree(difference) => differing_stop(alloc, difference.line()),
        JoinErr::Memory => Stop::Memory,
    }
}
