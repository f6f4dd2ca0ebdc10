// What is true of the code of every program, and of every code whose jumps go forward.
ghost use Rattle.std.specs.Prelude.{ℕ, List};
ghost use Rattle.program_trees.specs.TypedPrograms.{TypedProgramTree};
ghost use Rattle.reached_instances.specs.Instances.{Instance};
ghost use Rattle.blind_evaluation.specs.Effects.{World};
ghost use Rattle.blind_evaluation.specs.Reports.{Offered};
ghost use Rattle.bytecode.specs.Raw.{RawCode};
ghost use Rattle.verified_code.specs.Steps.{Function};
ghost use Rattle.code_model.specs.Meaning.{AreForward};
ghost use Rattle.code_model.specs.Programs.{code_of};
ghost use Rattle.code_model.specs.Laws.{BlindNeverWants, BlindTakesTheSameCourse, BeginsWithin};
ghost use Rattle.code_model.specs.Laws.{EndsWithinFuel, FitsWhereReached, KeepsKinds, MeansTheProgram, RunsWhereVerified};

/// Law: the meaning of a program's code is the program's evaluation: the same end, cost, words of tapes, events, opened words and
/// gates, whatever the tapes, the inputs, the budget and the answers, in the clear and blind. The instances that have code may be those
/// that the program reaches.
pub fn code_means_what_the_program_does()
    ensures means { (p : TypedProgramTree) (is : List Instance) (w : World) (budget : ℕ) (answers : List ℕ) →
        MeansTheProgram p is w budget answers }
    ensures reached { (p : TypedProgramTree) (is : List Instance) → FitsWhereReached p is }
{}

/// Law: a blind run of a program's code, told the words that the run in the clear opens and any more after them, takes the course
/// of the run in the clear, and never wants an answer.
pub fn blind_runs_of_code_take_the_same_course()
    ensures same { (p : TypedProgramTree) (is : List Instance) (o : Offered) (budget : ℕ) (more : List ℕ) →
        BlindTakesTheSameCourse p is o budget more }
    ensures never_short { (p : TypedProgramTree) (is : List Instance) (o : Offered) (budget : ℕ) (more : List ℕ) →
        BlindNeverWants p is o budget more }
{}

/// Law: each run of code whose jumps go forward ends within its fuel, and the jumps of a program's code go forward.
pub fn runs_of_code_end()
    ensures ends { (w : World) (c : List Function) (budget : ℕ) (answers : List ℕ) → EndsWithinFuel w c budget answers }
    ensures forward { (p : TypedProgramTree) (is : List Instance) → AreForward (code_of p is) }
{}

/// Law: code whose steps fit begins within itself. From within, the next step is there, and leads to a place within the code, where
/// each register is of its kind again: as private as it says, of its shape, and of one element where it is no array.
pub fn registers_keep_their_kinds()
    ensures begins { (c : List Function) → BeginsWithin c }
    ensures keeps { (w : World) (c : List Function) → KeepsKinds w c }
{}

/// Law: the steps of verified code fit, and its jumps go forward. So its runs end within their fuel, and its registers keep their
/// kinds: a machine that runs it looks nothing up in vain.
pub fn verified_code_runs()
    ensures { (c : RawCode) → RunsWhereVerified c }
{}
