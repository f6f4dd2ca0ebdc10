// What is true of a miner that runs code, whatever gates it has run before.
ghost use Rattle.std.specs.Prelude.{ℕ, List};
ghost use Rattle.proto_core.specs.declared.party.Number.{Number};
ghost use Rattle.gates.specs.declared.gate.Gate.{Gate};
ghost use Rattle.gates.specs.Clear.{Values};
ghost use Rattle.language_model.specs.Effects.{World};
ghost use Rattle.verified_code.specs.Steps.{Function};
ghost use Rattle.code_places.specs.Places.{Place};
ghost use Rattle.own_code.specs.EarlierGates.{CodeNeedsNoEarlierGates};

/// Law: a miner that runs code sends, opens and tells the same, and ends at the same place with the same values, whatever gates stand at
/// the place from which it goes on; only the gates at the place of its end are others.
pub fn earlier_gates_change_no_run()
    ensures { (w : World) (c : List Function) (i : Number) (dealt : Values) (fuel : ℕ) (p : Place) (before : List Gate) (values : Values)
        (tape : List ℕ) → CodeNeedsNoEarlierGates w c i dealt fuel p before values tape }
{}
