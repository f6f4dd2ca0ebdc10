ghost use Rattle.std.specs.Prelude.{ℕ};
ghost use Rattle.proto_core.specs.Protocol.{Protocol, Joint, Lawful};

/// An interactive gate, by what its protocol means: draws, script, messages, outputs, and what each miner receives.
///
/// `clear` says what the three miners' outputs have to do with the values of the operands.
/// `lawful` proves that the messages and outputs are the definition's, that `clear` holds, and that what a miner
/// receives is read off words that are mapped one to one from those that were drawn.
pub trait Interactive {
    ghost protocol: { Protocol };

    ghost clear: { ℕ → Joint → Type 0 };

    ghost lawful: { Lawful protocol clear };
}

/// Each interactive gate is right and private.
pub fn interactive_is_lawful<G: Interactive>()
    ensures { Lawful G.protocol G.clear }
{}
