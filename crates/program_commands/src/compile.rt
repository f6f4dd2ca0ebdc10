// The command `compile`.
ghost use Rattle.std.specs.Prelude.{◌≡◌, ◌∷◌, [], true, length, IfOk, IfErr, string_bytes};
ghost use Rattle.command_frame.specs.Answer.{effect_of};
ghost use Rattle.command_frame.specs.Reads.{EndsDone, OnlyRead, Gives, KeepsTo, PlanNames, StopsReading};
ghost use Rattle.command_words.specs.Views.{compile_ask};
ghost use Rattle.bytecode.specs.InMemory.{raw_code};
ghost use Rattle.program_commands.specs.Compile.{compile_of, compile_paths, compiled_paths, functions_text, written_effect};
ghost use Rattle.program_commands.specs.Judging.{Finding, FoundAt, HasFinding, its_program, Tells};

use crate::programs::read_typed;
use bytecode::{Code, encode};
use command_frame::{Content, Plan, PlannedWrite, Status, Stop};
use command_words::CompileWords;
use outside::Files;
use program_run::compile_program;
use std::alloc::{AllocError, Global};

#[tactic(auto, using(crate::proofs::CodeLaws::functions_counted))]
fn functions(code: &Code) -> u64
    ensures { result ≡ length (raw_code code.now).functions }
{
    code.functions.len() as u64
}

// How many functions there are.
#[tactic(auto, unfolding(crate::specs::Compile::functions_text))]
fn functions_line(alloc: Global, count: u64) -> Result<String, AllocError>
    ensures { IfOk result (λ line. string_bytes line ≡ functions_text count) }
{
    format!(in alloc; "functions {count}\n")
}

/// What is to be written and printed of code: itself, at this path, and how many functions it has.
pub(crate) fn code_plan(alloc: Global, code: &Code, path: &str) -> Result<Plan, AllocError>
    ensures effect { IfOk result (λ plan. effect_of plan ≡ written_effect path.now (raw_code code.now)) }
    ensures names { IfOk result (PlanNames (path.now ∷ [])) }
    ensures ends { EndsDone result }
{
    let line = functions_line(alloc, functions(code))?;
    let content = Content::Bytes(encode(alloc, code)?);
    let path = String::from_str(alloc, path)?;
    let mut writes = Vec::new(alloc);
    writes.push(PlannedWrite { path, content })?;
    Ok(Plan {
        writes,
        text: line.into_bytes(),
        status: Status::Done,
    })
}

/// Reads and judges the program, its size too, and says what is to be written and printed: its code, and how many functions that has.
#[tactic(auto, unfolding(crate::specs::Compile::compile_of, crate::specs::Compile::compile_paths, crate::specs::Compile::compiled_paths))]
pub fn plan_compile<F: Files>(
    alloc: Global,
    files: &mut F,
    words: &CompileWords,
) -> Result<Plan, Stop>
    ensures files { OnlyRead (F.state files.old) (F.state files.new) }
    ensures anyhow { IfErr result (StopsReading (F.state files.old) (F.state files.new)) }
    ensures answer { (found : Finding) → FoundAt (its_program (compile_ask words.now).program) (F.state files.old).contents found →
        Gives effect_of (F.state files.old) (F.state files.new) result
        (compile_of found (compile_ask words.now) (F.state files.old).contents) }
    ensures found { (F.state files.old).told ≡ true → Tells (F.state files.old) result →
        HasFinding (its_program (compile_ask words.now).program) (F.state files.old).contents }
    ensures names { KeepsTo (compile_paths (compile_ask words.now)) (compiled_paths (compile_ask words.now)) result }
    ensures ends { EndsDone result }
{
    let program = read_typed(alloc, files, &words.program)?;
    let code = compile_program(alloc, &program)?;
    Ok(code_plan(alloc, code.code(), &words.code)?)
}
