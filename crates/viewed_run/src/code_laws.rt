// What is true of the views of miners that run a program's code.
ghost use Rattle.std.specs.Prelude.{ℕ, List};
ghost use Rattle.proto_core.specs.declared.party.Number.{Number};
ghost use Rattle.protocol_model.specs.Network.{Delivery};
ghost use Rattle.tape_file.specs.Tapes.{FourTapes};
ghost use Rattle.value_file.specs.declared.inputs.Entry.{Entry};
ghost use Rattle.program_trees.specs.TypedPrograms.{TypedProgramTree};
ghost use Rattle.viewed_run.specs.CodeViews.{CodeViewsAreViews};

/// Law: of an accepted program, inputs that its dealer's tape suffices for, and a delivery that is accepted, each miner has a view. Three
/// miners, each by its own shares and tape alone, run the program's code: what comes to one, in order of arrival, is what its view has
/// received; after the delivery it has told the view's openings, and has stopped as the view's end says, at its cost, and with as many
/// words drawn.
pub fn code_views_are_views()
    ensures { (i : Number) (p : TypedProgramTree) (entries : List Entry) (t : FourTapes) (budget : ℕ) (delivery : Delivery) →
        CodeViewsAreViews i p entries t budget delivery }
{}
