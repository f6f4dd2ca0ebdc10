// What each step leaves of a stage.
ghost use Rattle.language_model.specs.Effects.{Stage, World};
ghost use Rattle.bytecode.specs.Raw.{RawCode};
ghost use Rattle.named_values.specs.Machine.{Machine};
ghost use Rattle.code_machine.specs.Marks.{OnlyGains};

/// Law: a step, however it ends, takes no gate, no event and no opened word back. So a stage that was marked before a step is there
/// again when it is rewound after it.
pub fn steps_only_gain()
    ensures { (w : World) (code : RawCode) (m : Machine) (s : Stage) → OnlyGains w code m s }
{}
