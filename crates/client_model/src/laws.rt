ghost use Rattle.std.specs.Prelude.{ℕ, Bool, List};
ghost use Rattle.proto_core.specs.declared.party.Number.{Number};
ghost use Rattle.proto_core.specs.Protocol.{Sound, Private};
ghost use Rattle.protocol_model.specs.Runs.{Tapes};
ghost use Rattle.blocked_protocol.specs.Blocked.{blocked};
ghost use Rattle.gates.specs.declared.gate.Gate.{Gate as GateValue};
ghost use Rattle.gates.specs.declared.ring_kind.RingKind.{RingKind};
ghost use Rattle.gates.specs.Clear.{Values, ring_of};
ghost use Rattle.shared_gates.specs.Shares.{Kind};
ghost use Rattle.shared_gates.specs.Kinds.{AllKinded};
ghost use Rattle.client_model.specs.Laws.{ClientTapesCorrespond, GivenIsMade, GivenIsKept, Runs};
ghost use Rattle.client_model.specs.Twins.{Dealing, HandsOver, IsTwin};
ghost use Rattle.client_model.specs.Told.{told_protocol};

/// Law: whichever of the values that are handed over are the client's own, the tapes of the miners correspond one to one with those that its
/// view is made of; each keeps its length, and the third miner's its words.
pub fn client_tapes_correspond()
    ensures { (mine : ℕ → Bool) (dealt : Number → Values) (dealt_sizes : List ℕ) (gates : List GateValue) (tapes : Tapes) →
        Runs dealt dealt_sizes gates tapes → ClientTapesCorrespond mine dealt dealt_sizes gates tapes }
{}

/// Law: what the client is given of its own values is what the simulator makes of their words and of the mapped tapes: two of the three shares
/// are slots of these, and the third is what they leave of the words. It is told no share and no other value, and computes no gate.
pub fn given_is_made()
    ensures { (mine : ℕ → Bool) (dealt_kinds kinds : List Kind) (inputs : Values) (dealt : Number → Values) (dealt_sizes : List ℕ) (gates : List GateValue)
        (tapes : Tapes) → AllKinded dealt_kinds kinds 0 gates → Runs dealt dealt_sizes gates tapes →
        GivenIsMade mine dealt dealt_sizes gates dealt_kinds kinds inputs tapes }
{}

/// Law: what the client is given are the shares that the three miners keep of its own values, laid beside one another.
pub fn given_is_what_is_kept()
    ensures { (mine : ℕ → Bool) (dealt : Number → Values) (dealt_sizes : List ℕ) (gates : List GateValue) (tapes : Tapes) →
        GivenIsKept mine dealt dealt_sizes gates tapes }
{}

/// Law: of two dealings that hand over the same words to the client, whatever is drawn, each tape of the first has a twin with which the second
/// gives it the same, and twinned back that is the first tape.
pub fn client_twins_are_given_the_same()
    ensures { (mine : ℕ → Bool) (dealt_kinds kinds : List Kind) (dealt_sizes : List ℕ) (gates : List GateValue) (published : Values) (first second : Dealing)
        (tapes : Tapes) → AllKinded dealt_kinds kinds 0 gates → HandsOver mine kinds dealt_sizes gates first published →
        HandsOver mine kinds dealt_sizes gates second published → Runs first.shares dealt_sizes gates tapes →
        Runs second.shares dealt_sizes gates tapes → IsTwin mine kinds dealt_sizes gates first second tapes }
{}

/// Law: where a value is handed over and one of the miners looks together with the client, the gate is what it was, and their view of it is made
/// by the row of an opening: of the miner's own share, of the value's words, of the mapped tapes, and of nothing else.
pub fn told_values_keep_a_view()
    ensures { (ring : RingKind) → Sound (blocked (told_protocol (ring_of ring))) × Private (blocked (told_protocol (ring_of ring))) }
{}
