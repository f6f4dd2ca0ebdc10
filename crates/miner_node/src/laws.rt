// What a node comes to, in the words of messages.
ghost use Rattle.std.specs.Prelude.{ℕ, List};
ghost use Rattle.proto_core.specs.declared.party.Number.{Number};
ghost use Rattle.proto_core.specs.Strand.{Mail, Strand};
ghost use Rattle.miner_core.specs.OwnCode.{Ended};
ghost use Rattle.wire.specs.declared.fields.Hello.{Hello};
ghost use Rattle.miner_node.specs.Laws.{DoesAsItsMiner, EndsWithHonestPeers};

/// Law: once both hellos were read, a node does what its miner does on the messages that it has received, with which the bytes of its peers
/// begin. Where it comes to its end, the miner has ended so; where it refuses a message, the miner refuses it; and where what comes is no frame,
/// or less than one, the miner waits.
pub fn nodes_do_as_their_miners()
    ensures { (i : Number) (s : Strand Ended) (coming : ℕ → List ℕ) → DoesAsItsMiner i s coming }
{}

/// Law: where each peer sends the hello that it has to send, and then the frames of messages with which the miner's run ends, the node
/// comes to this end, and has done all that the run does.
pub fn honest_peers_lead_to_the_end()
    ensures { (i : Number) (hello : Hello) (s : Strand Ended) (mail : Mail) (coming : ℕ → List ℕ) → EndsWithHonestPeers i hello s mail coming }
{}
