// What is true of the raw code of an accepted program: it can be written, and no function of it is heavier than its tree.
ghost use Rattle.std.specs.Prelude.{List};
ghost use Rattle.program_trees.specs.Programs.{ProgramTree};
ghost use Rattle.verified_code.specs.Steps.{Function};
ghost use Rattle.program_trees.specs.TypedPrograms.{TypedProgramTree};
ghost use Rattle.reached_instances.specs.Instances.{Instance};
ghost use Rattle.written_code.specs.Narrow.{HasNarrowFunctions};
ghost use Rattle.written_code.specs.WritingLaws.{IsWritableWhereRight, IsWritableWhereAccepted, IsWithinWeightWhereTyped};

/// Law: the raw code of steps that are right is writable, where it has few functions, few steps in each and few names, and where its
/// literals are words, its lines have 32 bits and its names are names.
pub fn right_code_is_writable()
    ensures { (c : List Function) → IsWritableWhereRight c }
{}

/// Law: so the raw code is writable of each program that the checker accepts, that the grammar allows, whose lines have 32 bits and whose
/// inputs and results have names, and that is within the limits of size.
pub fn accepted_code_is_writable()
    ensures { (p : ProgramTree) → IsWritableWhereAccepted p }
{}

/// Law: each function of the raw code of a typed program's instances has at most as many instructions, and at most as many registers, as its
/// weight, which is 16 times the size of the function that the instance is of, where this size is below the largest that is counted.
pub fn functions_are_within_their_weight()
    ensures { (p : ProgramTree) → IsWithinWeightWhereTyped p }
{}

/// Law: each function of the raw code of a typed program's instances has at most as many registers as it has parameters and declared
/// variables, and 128 for each node of the expressions of its largest statement, so that statement after statement uses them again.
pub fn functions_are_narrow()
    ensures { (p : TypedProgramTree) (is : List Instance) → HasNarrowFunctions p is }
{}
