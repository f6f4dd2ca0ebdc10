// What is true of the typed tree of an accepted program, under each binding that its `main` reaches.
ghost use Rattle.program_trees.specs.Programs.{ProgramTree};
ghost use Rattle.well_typed.specs.Laws.{AreInstancesChecked, IsWellTypedWhereAccepted};

/// In the typed tree of a program that the checker accepts, and whose text the grammar allows, each reached function is well typed
/// under each of its bindings, and the checker checked it with just these domains.
pub fn accepted_programs_are_well_typed()
    ensures well_typed { (p : ProgramTree) → IsWellTypedWhereAccepted p }
    ensures instances { (p : ProgramTree) → AreInstancesChecked p }
{}
