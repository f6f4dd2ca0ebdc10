// What is true of every run, with and without the private inputs.
ghost use Rattle.std.specs.Prelude.{ℕ, List, ◌++◌};
ghost use Rattle.program_trees.specs.TypedPrograms.{TypedProgramTree};
ghost use Rattle.language_model.specs.Reports.{Offered, eval, blind};
ghost use Rattle.blind_evaluation.specs.Courses.{TakeSameCourse, IsEnded};

/// Law: evaluation with zeros in the place of the private inputs, told the words that the run in the clear opens and any
/// more after them, takes the course of the run in the clear, and never wants an answer: whatever the program, the inputs,
/// the lengths of the tapes and the budget.
pub fn blind_runs_take_the_same_course()
    ensures same { (p : TypedProgramTree) (o : Offered) (budget : ℕ) (more : List ℕ) →
        TakeSameCourse (eval p o budget) (blind p o ((eval p o budget).opened ++ more) budget) }
    ensures never_short { (p : TypedProgramTree) (o : Offered) (budget : ℕ) (more : List ℕ) →
        IsEnded (blind p o ((eval p o budget).opened ++ more) budget).stop }
{}
