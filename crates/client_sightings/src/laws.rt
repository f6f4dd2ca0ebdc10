// What the client sees of three miners.
ghost use Rattle.std.specs.Prelude.{ℕ, List};
ghost use Rattle.tape_file.specs.Tapes.{FourTapes};
ghost use Rattle.value_file.specs.declared.inputs.Entry.{Entry};
ghost use Rattle.program_trees.specs.TypedPrograms.{TypedProgramTree};
ghost use Rattle.client_sightings.specs.Sightings.{ClientSees};

/// Law: after every complete order of deliveries, what three miners have told who run the code of an accepted program on their shares of a file's
/// inputs is, notice by notice, the client's view of the run: what was opened and published, which all three tell alike, and of each value that is
/// handed over the three shares, which add up to it.
pub fn three_miners_tell_what_the_client_sees()
    ensures { (p : TypedProgramTree) (entries : List Entry) (t : FourTapes) (budget : ℕ) → ClientSees p entries t budget }
{}
