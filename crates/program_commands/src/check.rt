// The command `check`.
ghost use Rattle.std.specs.Prelude.{◌≡◌, [], true, string_bytes, IfOk, IfErr};
ghost use Rattle.command_frame.specs.Answer.{effect_of};
ghost use Rattle.command_frame.specs.Reads.{EndsDone, OnlyRead, Gives, KeepsTo, StopsReading};
ghost use Rattle.program_commands.specs.Check.{check_of, check_paths, check_text};
ghost use Rattle.program_commands.specs.Judging.{Finding, FoundAt, HasFinding, its_program, Tells};

use crate::programs::read_typed;
use command_frame::{Plan, Status, Stop};
use command_words::CheckWords;
use outside::Files;
use std::alloc::{AllocError, Global};

// What is printed of an accepted program.
#[tactic(auto, unfolding(crate::specs::Check::check_text))]
fn text(alloc: Global) -> Result<Vec<u8>, AllocError>
    ensures { IfOk result (λ text. text.items ≡ check_text) }
{
    let mut text = Vec::new(alloc);
    text.extend_from_slice(b"ok\n")?;
    Ok(text)
}

/// Reads and judges the program, its size too, and says what is to be printed.
#[tactic(auto, unfolding(crate::specs::Check::check_of, crate::specs::Check::check_paths))]
pub fn plan_check<F: Files>(alloc: Global, files: &mut F, words: &CheckWords) -> Result<Plan, Stop>
    ensures files { OnlyRead (F.state files.old) (F.state files.new) }
    ensures anyhow { IfErr result (StopsReading (F.state files.old) (F.state files.new)) }
    ensures answer { (found : Finding) → FoundAt (its_program (string_bytes words.now.program)) (F.state files.old).contents found →
        Gives effect_of (F.state files.old) (F.state files.new) result
        (check_of found (string_bytes words.now.program) (F.state files.old).contents) }
    ensures found { (F.state files.old).told ≡ true → Tells (F.state files.old) result →
        HasFinding (its_program (string_bytes words.now.program)) (F.state files.old).contents }
    ensures names { KeepsTo (check_paths (string_bytes words.now.program)) [] result }
    ensures ends { EndsDone result }
{
    let _program = read_typed(alloc, files, &words.program)?;
    Ok(Plan {
        writes: Vec::new(alloc),
        text: text(alloc)?,
        status: Status::Done,
    })
}
