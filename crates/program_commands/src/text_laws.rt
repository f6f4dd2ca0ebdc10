// What is true of the tree that the tokens of a text spell.
ghost use Rattle.std.specs.Prelude.{List, ℕ};
ghost use Rattle.program_trees.specs.Programs.{ProgramTree};
ghost use Rattle.program_commands.specs.PlacedText.{IsPlacedWhereSpelled};

/// Law: the places of the tree that the tokens of a text spell have lines of 32 bits, and its inputs and results have names.
pub fn texts_have_lines_and_names()
    ensures { (bytes : List ℕ) (tree : ProgramTree) → IsPlacedWhereSpelled bytes tree }
{}
