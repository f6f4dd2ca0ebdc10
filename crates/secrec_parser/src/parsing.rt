// The whole parser.

ghost use Rattle.std.specs.Prelude.{◌≡◌, ◌<◌, ◌≤◌, length, IfOk};
ghost use Rattle.program_trees.specs.Programs.{ProgramTree, program_tree};
ghost use Rattle.program_trees.specs.Heights.{program_height};
ghost use Rattle.secrec_parser.specs.Grammar.{IsProgram};
ghost use Rattle.secrec_parser.specs.FirstFault.{height_limit};
ghost use Rattle.secrec_parser.specs.Answer.{IsTree, RefusesAtFault, refusal_at};

use crate::parse_err::ParseErr;
use crate::program::program;
use expression_parser::{ParseProblem, Stopped};
use program_trees::Program;
use secrec_lexer::{Token, Tokens};
use std::alloc::Global;

/// How high a statement of a function is at most: a program is at most 128 nodes high, and three of them, the program, the
/// function and its body, stand above.
const STATEMENT_HEIGHT: u8 = 125;

/// The program that the tokens spell, where there is one of at most 128 nodes in height.
///
/// Otherwise the refusal stands at the first token such that no such program begins with the tokens up to it: `Unexpected`
/// where none of any height does, else `TooHigh`.
pub fn parse(alloc: Global, tokens: &Tokens) -> Result<Program, ParseErr>
    // What is found is spelled by the tokens, and low enough.
    ensures found { IfOk result (λ p. IsProgram (program_tree p) tokens.now × (program_height (program_tree p) ≤ height_limit)) }
    // What is spelled by the tokens and low enough is found, unless memory ran out; so the tokens spell one tree at most.
    ensures only { (tree : ProgramTree) → IsProgram tree tokens.now → program_height tree ≤ height_limit → IsTree result tree }
    // A refusal stands at the first fault, with its cause.
    ensures refused { RefusesAtFault height_limit tokens.now result }
{
    match program(alloc, tokens.as_slice(), STATEMENT_HEIGHT) {
        Ok((found, _)) => Ok(found),
        Err(Stopped::Memory) => Err(ParseErr::Memory),
        Err(Stopped::At(problem, rest)) => Err(refusal(problem, rest)),
    }
}

/// The refusal at the first of these tokens.
fn refusal(problem: ParseProblem, rest: &[Token]) -> ParseErr
    requires { 0 < length rest.now }
    ensures { refusal_at problem rest.now result }
{
    let place = rest[0].place;
    ParseErr::Refused { problem, place }
}
