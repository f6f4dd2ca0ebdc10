ghost use Rattle.std.specs.Prelude.{ℕ, Bool, List, []};
ghost use Rattle.proto_core.specs.declared.party.Number.{Number};
ghost use Rattle.gates.specs.declared.gate.Gate.{Gate as GateValue};
ghost use Rattle.gates.specs.Clear.{Values};
ghost use Rattle.shared_gates.specs.Shares.{Kind};
ghost use Rattle.shared_gates.specs.Kinds.{AllKinded};
ghost use Rattle.shared_gates.specs.Computed.{Computed};
ghost use Rattle.handed_shares.specs.Handed.{AreKept};

/// Law: whichever of the values that a run hands over are kept, what the three miners keep are shares of these values, each in the ring of its
/// gate, and as many. So a later run may begin with them as with shares that were dealt.
pub fn kept_shares_are_of_what_is_handed_over()
    ensures { (mine : ℕ → Bool) (dealt_kinds kinds : List Kind) (inputs : Values) (gates : List GateValue) (shares : Number → Values) (opened : List ℕ) →
        AllKinded dealt_kinds kinds 0 gates → (run : Computed kinds inputs [] gates shares opened) → AreKept mine gates run.more shares }
{}
