// What is true of the values that code takes.
ghost use Rattle.std.specs.Prelude.{ℕ, List};
ghost use Rattle.gates.specs.declared.gate.Gate.{Gate};
ghost use Rattle.gates.specs.Clear.{Values};
ghost use Rattle.language_model.specs.Effects.{World, Stage};
ghost use Rattle.verified_code.specs.Steps.{Function};
ghost use Rattle.code_model.specs.Machine.{Machine};
ghost use Rattle.named_values.specs.Laws.{FitByWhatTheyTake, StepTakesWhatIsNamed, RunTakesWhatIsNamed};

/// Law: of the values before them, gates depend on those that they take alone.
pub fn gates_fit_by_what_they_take()
    ensures { (inputs xs ys : Values) (next : ℕ) (gates : List Gate) → FitByWhatTheyTake inputs xs ys next gates }
{}

/// Law: a step of code takes values that its machine names, or that it has made itself; after it the machine names no others.
pub fn steps_take_what_is_named()
    ensures { (w : World) (c : List Function) (m : Machine) (s : Stage) → StepTakesWhatIsNamed w c m s }
{}

/// Law: so the further steps of a run never take a value that no register names.
pub fn runs_take_what_is_named()
    ensures { (w : World) (c : List Function) (k : ℕ) (m : Machine) (s : Stage) → RunTakesWhatIsNamed w c k m s }
{}
