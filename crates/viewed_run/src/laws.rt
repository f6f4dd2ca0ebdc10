// What is true of the nets of all runs.
ghost use Rattle.std.specs.Prelude.{ℕ, List};
ghost use Rattle.protocol_model.specs.Network.{Delivery};
ghost use Rattle.tape_file.specs.Tapes.{FourTapes};
ghost use Rattle.program_trees.specs.TypedPrograms.{TypedProgramTree};
ghost use Rattle.value_file.specs.declared.inputs.Entry.{Entry};
ghost use Rattle.viewed_run.specs.Laws.{NetsAgree};

/// Law: whatever the program, its inputs, the tapes and the budget, the net that views are seen in is the net of the run: each delivery
/// comes to the same in both, and has the same order.
pub fn nets_agree()
    ensures { (p : TypedProgramTree) (entries : List Entry) (t : FourTapes) (budget : ℕ) (delivery : Delivery) →
        NetsAgree p entries t budget delivery }
{}
