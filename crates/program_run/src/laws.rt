// What is true of the runs of all accepted programs.
ghost use Rattle.std.specs.Prelude.{ℕ, List};
ghost use Rattle.tape_file.specs.Tapes.{FourTapes};
ghost use Rattle.value_file.specs.declared.inputs.Entry.{Entry};
ghost use Rattle.program_trees.specs.TypedPrograms.{TypedProgramTree};
ghost use Rattle.program_run.specs.Miners.{RunsWhereAccepted};

/// Law: three miners, each with its shares of a file's inputs and its tape alone, run the code of an accepted program as its evaluation
/// in the clear reports, with tapes of these lengths: under every order of delivery they send the messages of the report's gates, open its
/// words, tell its events, public values all three alike and private ones as shares of the published words, and end as it does.
pub fn accepted_programs_run_on_shares()
    ensures { (p : TypedProgramTree) (entries : List Entry) (t : FourTapes) (budget : ℕ) → RunsWhereAccepted p entries t budget }
{}
