ghost use Rattle.std.specs.Prelude.{ℕ};
ghost use Rattle.value_file.specs.Input.{AreInputs};
ghost use Rattle.workload.specs.Load.{load_entries};

/// Law: the entries of every workload are inputs, as the evaluator and the runs ask for them.
pub fn load_entries_are_inputs()
    ensures { (number : ℕ) → AreInputs (load_entries number) }
{}
