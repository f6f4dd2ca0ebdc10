// What the hosts of three miners see.
ghost use Rattle.std.specs.Prelude.{ℕ, List};
ghost use Rattle.outside.specs.Files.{Contents};
ghost use Rattle.command_words.specs.Ask.{MinerAsk};
ghost use Rattle.proto_core.specs.declared.party.Number.{Number};
ghost use Rattle.protocol_model.specs.Runs.{Tapes};
ghost use Rattle.bytecode.specs.Raw.{RawCode};
ghost use Rattle.value_file.specs.declared.inputs.Entry.{Entry};
ghost use Rattle.tape_file.specs.Tapes.{FourTapes};
ghost use Rattle.gather_command.specs.Owners.{Owner};
ghost use Rattle.program_trees.specs.TypedPrograms.{TypedProgramTree};
ghost use Rattle.host_views.specs.Laws.{GatheredHostsSeeTheirViews, HostsSeeTheirViews, NodesSeeTheirViews};

/// Law: of three miners with the code of an accepted program, the share files and own tapes of one dealing, and one budget, to each of which has come on
/// its links a front of the bytes that its peers have sent: the bytes on each link to one, all or cut off anywhere, begin the hello, which is made of
/// what everybody knows, and the frames of the messages that its view has there, under every complete order of delivery. So they begin the bytes that are
/// made of the simulator's view, on the public part of the inputs, the opened words and the mapped tapes. Its share file has the public part and the
/// shares of that view, and its tape is its own of the mapped tapes.
pub fn nodes_see_their_views()
    ensures { (p : TypedProgramTree) (entries : List Entry) (t : FourTapes) (budget : ℕ) (digest : List ℕ) (code : RawCode)
        (coming : Number → ℕ → List ℕ) → NodesSeeTheirViews p entries t budget digest code coming }
{}

/// Law: so it is of three calls of `miner` on hosts of their own, whose files hold the code and the parts of one dealing; and of three whose share files
/// `gather` wrote, since these are of one dealing, too.
pub fn hosts_see_their_views()
    ensures hosts { (p : TypedProgramTree) (entries : List Entry) (t : FourTapes) (budget : ℕ) (digest : List ℕ) (code : RawCode)
        (asks : Number → MinerAsk) (files : Number → Contents) (coming : Number → ℕ → List ℕ) →
        HostsSeeTheirViews p entries t budget digest code asks files coming }
    ensures gathered { (p : TypedProgramTree) (owners : List Owner) (tapes : Tapes) (budget : ℕ) (digest : List ℕ) (code : RawCode)
        (asks : Number → MinerAsk) (files : Number → Contents) (coming : Number → ℕ → List ℕ) →
        GatheredHostsSeeTheirViews p owners tapes budget digest code asks files coming }
{}
