// What `miner` answers whose peers send all that the run of the three sends.
ghost use Rattle.std.specs.Prelude.{ℕ, List};
ghost use Rattle.outside.specs.Files.{Contents};
ghost use Rattle.command_words.specs.Ask.{MinerAsk};
ghost use Rattle.program_trees.specs.TypedPrograms.{TypedProgramTree};
ghost use Rattle.value_file.specs.declared.inputs.Entry.{Entry};
ghost use Rattle.tape_file.specs.Tapes.{FourTapes};
ghost use Rattle.miner_command.specs.Files.{Given};
ghost use Rattle.bytecode.specs.Raw.{RawCode};
ghost use Rattle.proto_core.specs.declared.party.Number.{Number};
ghost use Rattle.honest_miners.specs.Miners.{WritesWithHonestPeers};
ghost use Rattle.honest_miners.specs.Three.{ThreeMinersAnswer};

/// Law: with the code of an accepted program, its share file of one dealing and its own tape, and with peers of which each sends the hello that it
/// has to send and then the frames of all messages of the run of the three, `miner` decides to write its part of what three miners tell who
/// tell the events of the program's evaluation, with the end and the cost of that, and to answer the end's status.
pub fn honest_miners_write_their_text()
    ensures { (p : TypedProgramTree) (entries : List Entry) (t : FourTapes) (ask : MinerAsk) (files : Contents) (given : Given)
        (coming : ℕ → List ℕ) → WritesWithHonestPeers p entries t ask files given coming }
{}

/// Law: of three calls of `miner` whose files hold the code of an accepted program, the share files and own tapes of one dealing, each for its own number
/// and with one budget, to each of which has come on its links a front of the bytes that the others have sent: each has sent a front of the hellos and
/// frames of the joint run; it decides to write its part of what three miners tell who tell the events of the program's evaluation, with the end and
/// the cost of that, or its peers' bytes end too early. Where all that was sent has come, each writes its text; and `join` puts the three together to
/// the text of the run.
pub fn three_miners_answer_the_run()
    ensures { (p : TypedProgramTree) (entries : List Entry) (t : FourTapes) (budget : ℕ) (digest : List ℕ) (code : RawCode)
        (asks : Number → MinerAsk) (files : Number → Contents) (coming : Number → ℕ → List ℕ) →
        ThreeMinersAnswer p entries t budget digest code asks files coming }
{}
