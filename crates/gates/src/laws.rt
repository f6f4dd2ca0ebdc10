// Laws of gates on clear values.
ghost use Rattle.std.specs.Prelude.{ℕ, ◌+◌, ◌^◌, ◌<◌, ◌≤◌, List, [], ◌++◌, length};
ghost use Rattle.gates.specs.declared.gate.Gate.{Gate};
ghost use Rattle.gates.specs.Clear.{Values, FitFrom, Fit};
ghost use Rattle.gates.specs.Counts.{made_by_all};
ghost use Rattle.gates.specs.Evaluated.{evaluated, AllSuit};

/// Where each gate of a whole run suits the values before it, the values that are made one after another are those of the run,
/// whatever mask each `Split` takes.
pub fn evaluated_runs_fit()
    ensures { (mask : ℕ) → mask < 2 ^ 64 → (inputs : Values) (gates : List Gate) → AllSuit mask inputs [] gates
        → Fit inputs gates (evaluated mask inputs [] gates) }
{}

/// The same of gates after values that are there.
pub fn evaluated_values_fit()
    ensures { (mask : ℕ) → mask < 2 ^ 64 → (inputs values : Values) (gates : List Gate) → AllSuit mask inputs values gates
        → FitFrom inputs (evaluated mask inputs values gates) (length values) gates }
{}

/// Values that fit gates go on to fit them where more values come after.
pub fn later_values_change_nothing()
    ensures { (inputs values more : Values) (next : ℕ) (gates : List Gate) → next + made_by_all gates ≤ length values
        → FitFrom inputs values next gates → FitFrom inputs (values ++ more) next gates }
{}
