// What is true of the client's view of a program's run.
ghost use Rattle.std.specs.Prelude.{ℕ, List};
ghost use Rattle.program_trees.specs.Programs.{ProgramTree};
ghost use Rattle.program_trees.specs.TypedPrograms.{TypedProgramTree};
ghost use Rattle.value_file.specs.declared.inputs.Entry.{Entry};
ghost use Rattle.tape_file.specs.Tapes.{FourTapes};
ghost use Rattle.client_view.specs.Views.{ClientView};
ghost use Rattle.client_view.specs.Laws.{ClientViewsAreSimulated, ClientTapesCorrespond, ClientTwinsSeeTheSame, ClientTwinsAreAsMany};

/// Law: what the client sees of the run of an accepted program on the inputs of a file is what the simulator makes of the public part of the
/// inputs, the opened words, those of what is handed over and the mapped tapes, whatever the budget and the tapes, also where these end the run.
pub fn client_views_are_simulated()
    ensures { (source : ProgramTree) (p : TypedProgramTree) (entries : List Entry) (t : FourTapes) (budget : ℕ) →
        ClientViewsAreSimulated source p entries t budget }
{}

/// Law: the tapes of a run correspond one to one with those that the client's view is made of; each keeps its length, and the dealer's tape and
/// the third miner's their words.
pub fn client_tapes_correspond()
    ensures { (source : ProgramTree) (p : TypedProgramTree) (entries : List Entry) (t : FourTapes) (budget : ℕ) →
        ClientTapesCorrespond source p entries t budget }
{}

/// Law: of two inputs that are alike to the client, each tape has a twin with which the second inputs give it the same view, and twinned back that
/// is the first tape.
pub fn client_twins_see_the_same()
    ensures { (source : ProgramTree) (p : TypedProgramTree) (first second : List Entry) (t : FourTapes) (budget : ℕ) →
        ClientTwinsSeeTheSame source p first second t budget }
{}

/// Law: of two inputs that are alike to the client, as many tapes of given lengths give it a view with the one as with the other: twins of distinct
/// tapes are distinct, and each gives the second inputs this view.
pub fn client_twins_are_as_many()
    ensures { (source : ProgramTree) (p : TypedProgramTree) (first second : List Entry) (lengths : List ℕ) (budget : ℕ) (view : ClientView)
        (ts : List FourTapes) → ClientTwinsAreAsMany source p first second lengths budget view ts }
{}
