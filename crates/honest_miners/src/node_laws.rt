// What a miner comes to whose peers send all that the run of the three sends.
ghost use Rattle.std.specs.Prelude.{ℕ, List};
ghost use Rattle.proto_core.specs.declared.party.Number.{Number};
ghost use Rattle.program_trees.specs.TypedPrograms.{TypedProgramTree};
ghost use Rattle.value_file.specs.declared.inputs.Entry.{Entry};
ghost use Rattle.tape_file.specs.Tapes.{FourTapes};
ghost use Rattle.node_run.specs.Nodes.{Own};
ghost use Rattle.honest_miners.specs.Honest.{EndsWithTheRun};

/// Law: a miner with the code of an accepted program, its share file of one dealing and its own tape, each of whose peers sends the hello that it
/// has to send and then the frames of all messages of the run of the three, comes to its end as evaluation does, at the same cost, and has
/// told its part of what three miners tell who tell the events of that evaluation.
pub fn honest_nodes_end_as_evaluated()
    ensures { (p : TypedProgramTree) (entries : List Entry) (t : FourTapes) (me : Number) (own : Own) (coming : ℕ → List ℕ) →
        EndsWithTheRun p entries t me own coming }
{}
