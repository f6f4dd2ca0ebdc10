// What is true of the simulator.
ghost use Rattle.std.specs.Prelude.{ℕ, List};
ghost use Rattle.program_trees.specs.Programs.{ProgramTree};
ghost use Rattle.program_trees.specs.TypedPrograms.{TypedProgramTree};
ghost use Rattle.proto_core.specs.declared.party.Number.{Number};
ghost use Rattle.protocol_model.specs.Network.{Delivery};
ghost use Rattle.value_file.specs.declared.inputs.Entry.{Entry};
ghost use Rattle.value_file.specs.declared.public.PublicEntry.{PublicEntry};
ghost use Rattle.tape_file.specs.Tapes.{FourTapes};
ghost use Rattle.view_simulator.specs.Laws.{ToldRunsCanBeMade, NetsAreSimulated, RunsAreSimulated};

/// Law: the gates of the run of one who knows the public part of the inputs alone, and is told what is opened, suit the sizes of the
/// inputs and of the values before them, and tapes as long as those of the run reach for them: whatever words are told, also where the run
/// ends for want of them, of budget or of a tape.
pub fn told_runs_can_be_made()
    ensures { (source : ProgramTree) (p : TypedProgramTree) (part : List PublicEntry) (opened : List ℕ) (s : FourTapes) (budget : ℕ) →
        ToldRunsCanBeMade source p part opened s budget }
{}

/// Law: with the public part of a file's inputs, the words that the run on them opens, also with more words after these, and the mapped
/// tapes, the net of the simulator is that of the run; and what the simulator answers is the miner's view of the run where the delivery
/// is accepted, and else the refusal of the run, or that memory ran short.
pub fn runs_are_simulated()
    ensures net { (i : Number) (source : ProgramTree) (p : TypedProgramTree) (entries : List Entry) (t : FourTapes) (budget : ℕ)
        (delivery : Delivery) → NetsAreSimulated i source p entries t budget delivery }
    ensures view { (i : Number) (source : ProgramTree) (p : TypedProgramTree) (entries : List Entry) (t : FourTapes) (budget : ℕ)
        (delivery : Delivery) → RunsAreSimulated i source p entries t budget delivery }
{}
