// What is true of three miners with one code and one dealing.
ghost use Rattle.std.specs.Prelude.{ℕ, List};
ghost use Rattle.proto_core.specs.Strand.{Mail};
ghost use Rattle.proto_core.specs.declared.party.Number.{Number};
ghost use Rattle.protocol_model.specs.Runs.{Tapes};
ghost use Rattle.bytecode.specs.Raw.{RawCode};
ghost use Rattle.tape_file.specs.Tapes.{FourTapes};
ghost use Rattle.value_file.specs.declared.inputs.Entry.{Entry};
ghost use Rattle.language_model.specs.Reports.{Offered};
ghost use Rattle.program_trees.specs.TypedPrograms.{TypedProgramTree};
ghost use Rattle.verified_code.specs.Steps.{Function};
ghost use Rattle.code_places.specs.Dealt.{Dealt};
ghost use Rattle.miner_core.specs.Story.{Story};
ghost use Rattle.link_schedule.specs.Net.{NetState};
ghost use Rattle.net_laws.specs.HonestLaws.{JoinedNodesGoOn, NetsGoOn, JoinedNodesGoOnWithPrograms, NetsGoOnWithPrograms};

/// Law: of three nodes with one code, one dealing, their own tapes and one budget, each of which has received what begins what its peers have sent:
/// none refuses a message, and one that waits does so for a link that ends at it, on which the run has a further message. Each message
/// that they sent can be framed: it has 1 to 2,048 words of 64 bits.
pub fn honest_nodes_go_on()
    ensures code { (o : Offered) (d : Dealt) (c : List Function) (budget : ℕ) (tapes : Tapes) (nodes : Number → Story) (mail : Mail) →
        JoinedNodesGoOn o d c budget tapes nodes mail }
    ensures programs { (p : TypedProgramTree) (given : RawCode) (entries : List Entry) (t : FourTapes) (budget : ℕ) (nodes : Number → Story) (mail : Mail) →
        JoinedNodesGoOnWithPrograms p given entries t budget nodes mail }
{}

/// Law: so it is in a net of three such miners, along whatever list of deliveries.
pub fn honest_nets_go_on()
    ensures code { (o : Offered) (d : Dealt) (c : List Function) (budget : ℕ) (tapes : Tapes) (net : NetState) → NetsGoOn o d c budget tapes net }
    ensures programs { (p : TypedProgramTree) (given : RawCode) (entries : List Entry) (t : FourTapes) (budget : ℕ) (net : NetState) →
        NetsGoOnWithPrograms p given entries t budget net }
{}
