// What is true of the views of a program's run.
ghost use Rattle.std.specs.Prelude.{ℕ, List};
ghost use Rattle.program_trees.specs.Programs.{ProgramTree};
ghost use Rattle.program_trees.specs.TypedPrograms.{TypedProgramTree};
ghost use Rattle.proto_core.specs.declared.party.Number.{Number};
ghost use Rattle.protocol_model.specs.Network.{Delivery};
ghost use Rattle.value_file.specs.declared.inputs.Entry.{Entry};
ghost use Rattle.tape_file.specs.Tapes.{FourTapes};
ghost use Rattle.view_text.specs.View.{View};
ghost use Rattle.program_views.specs.Laws.{ViewsAreSimulated, TapesCorrespond, NetsAreCounted, NetsAreAlike, TwinsSeeTheSame, TwinsAreAsMany};

/// Law: what a miner sees of the run of an accepted program on the inputs of a file is what the simulator makes of the public part of
/// the inputs, the opened words and the mapped tapes, whatever the delivery, the budget and the tapes, also where these end the run.
pub fn views_are_simulated()
    ensures { (i : Number) (source : ProgramTree) (p : TypedProgramTree) (entries : List Entry) (t : FourTapes) (budget : ℕ) (delivery : Delivery) →
        ViewsAreSimulated i source p entries t budget delivery }
{}

/// Law: the tapes of a run, the dealer's with them, correspond one to one with those that a miner's view is made of; each keeps its
/// length, and the miner's own tape its words.
pub fn tapes_correspond()
    ensures { (i : Number) (source : ProgramTree) (p : TypedProgramTree) (entries : List Entry) (t : FourTapes) (budget : ℕ) →
        TapesCorrespond i source p entries t budget }
{}

/// Law: what a delivery comes to is said by the miners' moves alone, which hold counts and no words; the default delivery and all
/// shuffled ones are accepted; and what then comes to a miner is what its view says. Of two inputs that are alike each delivery comes
/// to the same, on any tapes of the same lengths.
pub fn nets_are_counted()
    ensures counted { (source : ProgramTree) (p : TypedProgramTree) (entries : List Entry) (t : FourTapes) (budget : ℕ) →
        NetsAreCounted source p entries t budget }
    ensures alike { (p : TypedProgramTree) (first second : List Entry) (t t2 : FourTapes) (budget : ℕ) (delivery : Delivery) →
        NetsAreAlike p first second t t2 budget delivery }
{}

/// Law: of two inputs that are alike, each tape has a twin with which the second inputs give a miner the same view, under every
/// delivery, and twinned back that is the first tape.
pub fn twins_see_the_same()
    ensures { (i : Number) (source : ProgramTree) (p : TypedProgramTree) (first second : List Entry) (t : FourTapes) (budget : ℕ) →
        TwinsSeeTheSame i source p first second t budget }
{}

/// Law: of two inputs that are alike, as many tapes of given lengths give a view with the one as with the other: twins of distinct tapes
/// are distinct, and each gives the second inputs this view.
pub fn twins_are_as_many()
    ensures { (i : Number) (source : ProgramTree) (p : TypedProgramTree) (first second : List Entry) (lengths : List ℕ) (budget : ℕ)
        (delivery : Delivery) (view : View) (ts : List FourTapes) →
        TwinsAreAsMany i source p first second lengths budget delivery view ts }
{}
