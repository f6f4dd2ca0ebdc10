// What is true of typed trees, whatever the program.
ghost use Rattle.program_trees.specs.Programs.{ProgramTree};
ghost use Rattle.domain_types.specs.Typing.{IsTypedProgram};
ghost use Rattle.program_typing.specs.Existence.{HasTree};

/// Each program that the checker accepts has a typed tree: no name and no operator that its tree needs is missing.
pub fn accepted_programs_have_trees()
    ensures { (p : ProgramTree) → IsTypedProgram p → HasTree p }
{}
