// What is true of the tree that the tokens of a text spell.
ghost use Rattle.std.specs.Prelude.{ℕ, List};
ghost use Rattle.program_trees.specs.Programs.{ProgramTree};
ghost use Rattle.well_written.specs.Laws.{IsWellWrittenWhereSpelled};

/// The tree that the tokens of a text spell is well written.
pub fn texts_are_well_written()
    ensures { (bytes : List ℕ) (tree : ProgramTree) → IsWellWrittenWhereSpelled bytes tree }
{}
