// What is true of the deliveries of all runs.
ghost use Rattle.std.specs.Prelude.{ℕ, List};
ghost use Rattle.protocol_model.specs.Network.{Delivery};
ghost use Rattle.tape_file.specs.Tapes.{FourTapes};
ghost use Rattle.program_trees.specs.TypedPrograms.{TypedProgramTree};
ghost use Rattle.value_file.specs.declared.inputs.Entry.{Entry};
ghost use Rattle.delivered_run.specs.Laws.{MadeIsTaken};

/// Law: of the run of an accepted program, the delivery that takes always the first link with a message, and each that words choose, leaves
/// nothing to come: no entry is without its message, and no miner is left waiting.
pub fn made_deliveries_are_taken()
    ensures { (p : TypedProgramTree) (entries : List Entry) (t : FourTapes) (budget : ℕ) (delivery : Delivery) →
        MadeIsTaken p entries t budget delivery }
{}
