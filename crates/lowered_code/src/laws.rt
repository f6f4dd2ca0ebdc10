// What is true of the code of an accepted program.
ghost use Rattle.std.specs.Prelude.{List};
ghost use Rattle.program_trees.specs.Programs.{ProgramTree};
ghost use Rattle.program_trees.specs.TypedPrograms.{TypedProgramTree};
ghost use Rattle.reached_instances.specs.Instances.{Instance};
ghost use Rattle.lowered_code.specs.Laws.{FitsWhereWellTyped, MeansWhereAccepted};
ghost use Rattle.lowered_code.specs.Laws.{HasNumbersWhereSmall, IsSmallWithinLimits, IsVerifiedWhereWellTyped, RunsWhereAccepted};

/// Law: a well-typed program fits what its code asks of it, so that for each program that the checker accepts, and whose text the grammar
/// allows, the meaning of the code of its reached instances is its evaluation.
pub fn code_of_accepted_programs_means_what_they_do()
    ensures fits { (p : TypedProgramTree) (is : List Instance) → FitsWhereWellTyped p is }
    ensures means { (p : ProgramTree) → MeansWhereAccepted p }
{}

/// Law: the raw code of a well-typed program is verified, and settles to its code, where no function has more registers than there are
/// numbers. None has in a program within the limits of size. So for each program that the checker accepts, that the grammar allows and
/// that is within these limits, what is settled of its raw code does what the program does.
pub fn code_of_accepted_programs_is_verified()
    ensures verified { (p : TypedProgramTree) (is : List Instance) → IsVerifiedWhereWellTyped p is }
    ensures small { (p : TypedProgramTree) (is : List Instance) → IsSmallWithinLimits p is }
    ensures numbered { (p : ProgramTree) → HasNumbersWhereSmall p }
    ensures runs { (p : ProgramTree) → RunsWhereAccepted p }
{}
