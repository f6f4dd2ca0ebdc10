// What is true of the nets of a run, of its views and of the simulator.
ghost use Rattle.std.specs.Prelude.{ℕ, List};
ghost use Rattle.proto_core.specs.declared.link.Link.{Link};
ghost use Rattle.proto_core.specs.declared.party.Number.{Number};
ghost use Rattle.protocol_model.specs.Network.{Delivery};
ghost use Rattle.tape_file.specs.Tapes.{FourTapes};
ghost use Rattle.program_trees.specs.TypedPrograms.{TypedProgramTree};
ghost use Rattle.value_file.specs.declared.inputs.Entry.{Entry};
ghost use Rattle.net_laws.specs.LinkMessages.{HasItsMessages};
ghost use Rattle.net_laws.specs.MinersTold.{RunIsToldByMiners};
ghost use Rattle.net_laws.specs.OneNet.{HaveOneNet};

/// Law: of the run of an accepted program on inputs and tapes of words, told what the run opens and over the mapped tapes, the simulator
/// refuses a delivery exactly where the run does, for the same entry or miner; and where the run takes it, the messages of a miner's view
/// came on the links that the run has delivered, those that lead to this miner, in their order.
pub fn run_views_and_simulator_have_one_net()
    ensures { (i : Number) (p : TypedProgramTree) (entries : List Entry) (t : FourTapes) (budget : ℕ) (delivery : Delivery) →
        HaveOneNet i p entries t budget delivery }
{}

/// Law: of an accepted program, inputs that its dealer's tape suffices for, and a delivery that is accepted, the messages that a miner's view has
/// received on a link are those that three miners, each by its own shares and tape alone, send there in the whole run, in order, and all of them.
pub fn views_have_the_messages_of_links()
    ensures { (l : Link) (p : TypedProgramTree) (entries : List Entry) (t : FourTapes) (budget : ℕ) (delivery : Delivery) →
        HasItsMessages l p entries t budget delivery }
{}

/// Law: of an accepted program, inputs that its dealer's tape suffices for, and a delivery that is accepted, evaluation tells what three miners tell who
/// run the program's code, each by its shares and tape alone, their messages delivered on these links, put together as the client does; and all three have
/// stopped as evaluation ends, at its cost.
pub fn runs_are_told_by_their_miners()
    ensures { (p : TypedProgramTree) (entries : List Entry) (t : FourTapes) (budget : ℕ) (delivery : Delivery) →
        RunIsToldByMiners p entries t budget delivery }
{}
