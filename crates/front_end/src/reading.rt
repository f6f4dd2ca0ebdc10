// The whole front end.
ghost use Rattle.front_end.specs.Judgement.{Judged, IsJudged};
ghost use Rattle.front_end.specs.Answer.{IsAnswer, IsJust};

use crate::program_err::ProgramErr;
use domain_types::check;
use program_trees::Program;
use secrec_lexer::lex;
use secrec_parser::parse;
use std::alloc::Global;

/// The program that a text is.
///
/// Otherwise the text is refused for its first fault: of its tokens, else of the grammar, else of the type rules.
pub fn read_program(alloc: Global, text: &[u8]) -> Result<Program, ProgramErr>
    // What is answered is the judgement of the text.
    ensures answer { IsAnswer text.now result }
    // A text has no other, unless memory ran out.
    ensures only { (judged : Judged) → IsJudged text.now judged → IsJust result judged }
{
    let tokens = lex(alloc, text)?;
    let program = parse(alloc, &tokens)?;
    check(alloc, &program)?;
    Ok(program)
}
