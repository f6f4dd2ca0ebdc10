// What three nodes come to that are joined by links.
ghost use Rattle.std.specs.Prelude.{ℕ, List};
ghost use Rattle.proto_core.specs.Strand.{Mail};
ghost use Rattle.proto_core.specs.declared.party.Number.{Number};
ghost use Rattle.protocol_model.specs.Runs.{Tapes};
ghost use Rattle.bytecode.specs.Raw.{RawCode};
ghost use Rattle.tape_file.specs.Tapes.{FourTapes};
ghost use Rattle.value_file.specs.declared.inputs.Entry.{Entry};
ghost use Rattle.language_model.specs.Reports.{Offered};
ghost use Rattle.program_trees.specs.TypedPrograms.{TypedProgramTree};
ghost use Rattle.verified_code.specs.Steps.{Function};
ghost use Rattle.code_places.specs.Dealt.{Dealt};
ghost use Rattle.miner_core.specs.Story.{Story};
ghost use Rattle.joined_nodes.specs.Laws.{JoinedNodesAgree, JoinedNodesAgreeOnPrograms};

/// Law: of three nodes with one code, one dealing, their own tapes and one budget, each of which has received what begins what its peers have sent:
/// what each has sent on a link begins the joint run's messages, what it has opened begins the words that the run in the clear opens, and what it has
/// told begins what three miners tell who tell that run's events, the shares of a private one adding up to it. None refuses a message. A node that has
/// ended has the run's end and its cost, and has opened and told all.
///
/// This is so of code that may run in the clear, beside its run; and of the code of an accepted program on inputs that can be dealt, beside
/// the program's evaluation.
pub fn three_nodes()
    ensures code { (o : Offered) (d : Dealt) (c : List Function) (budget : ℕ) (tapes : Tapes) (nodes : Number → Story) (mail : Mail) →
        JoinedNodesAgree o d c budget tapes nodes mail }
    ensures programs { (p : TypedProgramTree) (given : RawCode) (entries : List Entry) (t : FourTapes) (budget : ℕ) (nodes : Number → Story) (mail : Mail) →
        JoinedNodesAgreeOnPrograms p given entries t budget nodes mail }
{}
