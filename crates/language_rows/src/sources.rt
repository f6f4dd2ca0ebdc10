// Programs that are read from their texts.
ghost use Rattle.std.specs.Prelude.{IfSome};
ghost use Rattle.program_trees.specs.TypedPrograms.{typed_program_tree};
ghost use Rattle.program_trees.specs.Sound.{IsSound};

use name_resolution::resolve;
use program_trees::{Program, TypedProgram};
use secrec_lexer::lex;
use secrec_parser::parse;
use std::alloc::Global;

/// The program of a text, if it has one.
pub fn program(alloc: Global, text: &str) -> Option<Program> {
    let tokens = lex(alloc, text.as_bytes()).ok()?;
    parse(alloc, &tokens).ok()
}

/// The typed tree of a text's program, if it has one; whether the program is well typed is not asked.
pub fn typed(alloc: Global, text: &str) -> Option<TypedProgram>
    ensures { IfSome result (λ p. IsSound (typed_program_tree p)) }
{
    let program = program(alloc, text)?;
    resolve(alloc, &program).ok()
}
