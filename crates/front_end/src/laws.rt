// Which texts are programs, by the typing relation.
ghost use Rattle.std.specs.Prelude.{◌↔◌, ℕ, List};
ghost use Rattle.program_trees.specs.Programs.{ProgramTree};
ghost use Rattle.domain_types.specs.Typing.{IsTypedProgram};
ghost use Rattle.front_end.specs.Judgement.{IsProgramText, Spells};

/// Law: a text is the program of a tree exactly where it spells this tree, which is low enough, and the tree is typed by the typing
/// relation. So to have no fault, and to be typed case by case, is the same for a program.
pub fn accepted_exactly_where_typed()
    ensures { (bytes : List ℕ) (tree : ProgramTree) → IsProgramText bytes tree ↔ (Spells bytes tree × IsTypedProgram tree) }
{}
