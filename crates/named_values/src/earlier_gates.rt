// What is true of code, whatever gates were made before.
ghost use Rattle.std.specs.Prelude.{List};
ghost use Rattle.gates.specs.declared.gate.Gate.{Gate};
ghost use Rattle.language_model.specs.Effects.{World, Stage};
ghost use Rattle.verified_code.specs.Steps.{Function};
ghost use Rattle.code_model.specs.Machine.{Machine};
ghost use Rattle.named_values.specs.Besides.{EarlierGatesChangeNothing};

/// Law: a step of code does the same, whatever gates were made before it: it comes to the same machine or stops for the same reason, and
/// makes the same gates after those that are there.
pub fn earlier_gates_change_no_step()
    ensures { (w : World) (c : List Function) (m : Machine) (s : Stage) (before : List Gate) → EarlierGatesChangeNothing w c m s before }
{}
