// What is asked of a child.
ghost use Rattle.std.specs.Prelude.{◌≡◌};
ghost use Rattle.trio.specs.Children.{is_end_status, lacked_memory, child_answer};

use crate::child_err::ChildErr;
use outside::SpawnErr;
use proto_core::Number;

/// Whether a miner whose run has ended has this status: done, trap, budget or tape.
fn is_end_status(status: i32) -> bool
    ensures { result ≡ is_end_status status }
{
    matches!(status, 0 | 1 | 7 | 8)
}

/// Whether there was no memory to wait for a miner.
pub fn lacked_memory(answer: Result<i32, SpawnErr>) -> bool
    ensures { result ≡ lacked_memory answer }
{
    match answer {
        Err(SpawnErr::Memory) => true,
        Err(SpawnErr::Failed) => false,
        Ok(_) => false,
    }
}

/// What it means that waiting for a miner was answered so.
pub fn child_answer(miner: Number, answer: Result<i32, SpawnErr>) -> Result<(), ChildErr>
    ensures { result ≡ child_answer miner answer }
{
    match answer {
        Ok(status) => {
            if is_end_status(status) {
                Ok(())
            } else {
                Err(ChildErr::Status { miner, status })
            }
        }
        Err(err) => Err(ChildErr::from(err)),
    }
}
