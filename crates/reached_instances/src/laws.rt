// What is true of lists of reached instances, whatever the program.
ghost use Rattle.program_trees.specs.TypedPrograms.{TypedProgramTree};
ghost use Rattle.reached_instances.specs.Laws.{BeginsWithMain, HasEachOnce, HasEachReached, IsTheOnlyList};

/// A program has at most one list of reached instances; it begins with `main`, has each instance once, and has all that are
/// reached.
pub fn one_list()
    ensures main_first { (p : TypedProgramTree) → BeginsWithMain p }
    ensures each_once { (p : TypedProgramTree) → HasEachOnce p }
    ensures complete { (p : TypedProgramTree) → HasEachReached p }
    ensures one { (p : TypedProgramTree) → IsTheOnlyList p }
{}
