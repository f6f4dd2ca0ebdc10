// What is true of refused messages.
ghost use Rattle.std.specs.Prelude.{◌≡◌, ◌*◌, ◌∷◌, ◌++◌, ℕ, List, Some, length, replicate};
ghost use Rattle.proto_core.specs.declared.refused.BadMessage.{BadMessage};
ghost use Rattle.proto_core.specs.Refusals.{WrongBit};
ghost use Rattle.proto_core.specs.Strand.{Bits, Words, shaped};
ghost use Rattle.proto_core.specs.Standing.{fault_of};

/// Law: of a message whose length is right, with one field of bits among fields of words, the first word of that field that is no bit
/// is told, with its place in the message.
pub fn a_wrong_bit_is_told_at_its_place()
    ensures { (n before after : ℕ) (m : List ℕ) (cause : BadMessage) →
        length m ≡ length (replicate before Words ++ Bits ∷ replicate after Words) * n → WrongBit m (before * n) n cause →
        fault_of (shaped n (replicate before Words ++ Bits ∷ replicate after Words)) m ≡ Some cause }
{}
