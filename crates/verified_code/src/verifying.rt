// The first fault of code.
ghost use Rattle.std.specs.Prelude.{◌≡◌, ◌<◌, length};
ghost use Rattle.bytecode.specs.InMemory.{raw_code, raw_function, raw_instruction};
ghost use Rattle.verified_code.specs.inner.Places.{here_in};
ghost use Rattle.verified_code.specs.Verified.{body_fault, first_fault, function_fault, functions_fault, head_fits, problem_at};

use crate::fault::{CodeProblem, VerifyErr};
use crate::kinds::gives_none;
use crate::place::{Here, goes_on, names_there, operands_fit, target_fits};
use bytecode::{Code, CodeFunction, Instruction};

fn head_fits(number: usize, function: &CodeFunction) -> bool
    ensures { result ≡ head_fits number (raw_function function.now) }
{
    (function.parameters as usize) <= function.registers.len()
        && (function.parameters == 0 && gives_none(function.gives) || number != 0)
}

fn problem_at(number: usize, here: Here<'_>, instruction: &Instruction) -> Option<CodeProblem>
    requires { here.place < length (raw_function here.own.now).body }
    ensures { result ≡ problem_at number (here_in here.entry) (raw_instruction instruction.now) }
{
    let fits = operands_fit(here, instruction) && (head_fits(number, here.own) || here.place != 0);
    let leads = target_fits(here, instruction) && goes_on(here, instruction);
    if !names_there(here, instruction) {
        Some(CodeProblem::BadRegister)
    } else if !fits {
        Some(CodeProblem::BadKind)
    } else if !leads {
        Some(CodeProblem::BadJump)
    } else {
        None
    }
}

fn body_fault(code: &Code, number: usize, own: &CodeFunction) -> Option<VerifyErr>
    ensures { result ≡ body_fault (raw_code code.now) number (raw_function own.now) 0 (raw_function own.now).body }
{
    for place in 0..own.body.len() {
        let here = Here { code, own, place };
        if let Some(problem) = problem_at(number, here, &own.body[place]) {
            return Some(VerifyErr {
                problem,
                function: number,
                instruction: place,
            });
        }
    }
    None
}

fn function_fault(code: &Code, number: usize, own: &CodeFunction) -> Option<VerifyErr>
    ensures { result ≡ function_fault (raw_code code.now) number (raw_function own.now) }
{
    if own.body.is_empty() {
        let problem = if head_fits(number, own) {
            CodeProblem::BadJump
        } else {
            CodeProblem::BadKind
        };
        return Some(VerifyErr {
            problem,
            function: number,
            instruction: 0,
        });
    }
    body_fault(code, number, own)
}

fn functions_fault(code: &Code) -> Option<VerifyErr>
    ensures { result ≡ functions_fault (raw_code code.now) 0 (raw_code code.now).functions }
{
    for number in 0..code.functions.len() {
        if let Some(fault) = function_fault(code, number, &code.functions[number]) {
            return Some(fault);
        }
    }
    None
}

/// The first fault of the code, if it has any.
pub(crate) fn first_fault(code: &Code) -> Option<VerifyErr>
    ensures { result ≡ first_fault (raw_code code.now) }
{
    if code.functions.is_empty() {
        return Some(VerifyErr {
            problem: CodeProblem::BadRegister,
            function: 0,
            instruction: 0,
        });
    }
    functions_fault(code)
}
