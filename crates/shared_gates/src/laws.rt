ghost use Rattle.std.specs.Prelude.{◌≡◌, ◌≤◌, ℕ, List, [], length};
ghost use Rattle.proto_core.specs.declared.party.Number.{Number};
ghost use Rattle.gates.specs.declared.gate.Gate.{Gate as GateValue};
ghost use Rattle.gates.specs.Clear.{Values, clear_value, Suits};
ghost use Rattle.shared_gates.specs.Shares.{Kind, Holds, AllHeld, kind_at};
ghost use Rattle.shared_gates.specs.LocalGates.{local_share, IsLocal};
ghost use Rattle.shared_gates.specs.Kinds.{Kinded, AllKinded};
ghost use Rattle.shared_gates.specs.Computed.{Computed};
ghost use Rattle.shared_gates.specs.OwnShares.{SameFor};
ghost use Rattle.protocol_model.specs.Runs.{Tapes, Ready, run_values, run_opened};
ghost use Rattle.gates.specs.Counts.{words_of_all};
ghost use Rattle.proto_core.specs.Lists.{AreWords};
ghost use Rattle.shared_gates.specs.Model.{AllSizesSuit, run_gates, sizes_after, miner_of};
ghost use Rattle.protocol_model.specs.Gates.{AreSound, ArePrivate, AreSilent, Sized, sizes_of, needed};

/// Law: where three miners hold the values before a gate that sends nothing, what each makes of its own shares and its
/// own number are shares of the value that the gate makes.
pub fn local_gates_keep_values()
    ensures { (dealt_kinds kinds : List Kind) (inputs values : Values) (dealt shares : Number → Values) (gate : GateValue) →
        AllHeld dealt_kinds inputs dealt → AllHeld kinds values shares → IsLocal gate →
        Kinded dealt_kinds kinds (length values) gate → Suits inputs values (length values) gate →
        Holds (kind_at kinds (length values)) (clear_value inputs values gate) (λ i. local_share i (dealt i) (shares i) gate) }
{}

/// Law: the gates of a run are of sound and private protocols, whatever the miners were dealt.
pub fn run_gates_are_sound_and_private()
    ensures sound { (dealt : Number → Values) (dealt_sizes sizes : List ℕ) (gates : List GateValue) →
        AreSound (run_gates dealt dealt_sizes sizes gates) }
    ensures private { (dealt : Number → Values) (dealt_sizes sizes : List ℕ) (gates : List GateValue) →
        ArePrivate (run_gates dealt dealt_sizes sizes gates) }
{}

/// Law: no protocol of a run's gates tells anything: what a miner tells, it tells beside them.
pub fn run_gates_tell_nothing()
    ensures { (dealt : Number → Values) (dealt_sizes sizes : List ℕ) (gates : List GateValue) →
        AreSilent (run_gates dealt dealt_sizes sizes gates) }
{}

/// Law: where each gate suits the sizes of the values before it, a run of them has operands of the sizes that it wants.
pub fn run_gates_are_sized()
    ensures { (dealt : Number → Values) (dealt_sizes sizes : List ℕ) (gates : List GateValue) →
        ((i : Number) → sizes_of (dealt i) ≡ dealt_sizes) → AllSizesSuit dealt_sizes sizes gates →
        Sized (run_gates dealt dealt_sizes sizes gates) sizes }
{}

/// Law: the words that a miner draws in a run of gates are as many as are counted for the gates.
pub fn run_gates_draw_the_counted_words()
    ensures { (dealt : Number → Values) (dealt_sizes sizes : List ℕ) (gates : List GateValue) (i : Number) →
        AllSizesSuit dealt_sizes sizes gates →
        needed (run_gates dealt dealt_sizes sizes gates) i ≡ words_of_all (sizes_after dealt_sizes sizes gates) (miner_of i) gates }
{}

/// Law: with as many words on each tape as are counted, a run of gates goes to its end: the laws of `protocol_model` on
/// runs, schedules and views hold of it.
pub fn runs_are_ready()
    ensures { (dealt : Number → Values) (dealt_sizes : List ℕ) (gates : List GateValue) (tapes : Tapes) →
        ((i : Number) → sizes_of (dealt i) ≡ dealt_sizes) → AllSizesSuit dealt_sizes [] gates →
        ((i : Number) → words_of_all (sizes_after dealt_sizes [] gates) (miner_of i) gates ≤ length (tapes i)) →
        ((i : Number) → AreWords (tapes i)) → Ready (run_gates dealt dealt_sizes [] gates) (λ i. []) tapes }
{}

/// Law: after a run of gates, from values that the miners were dealt, they hold values that fit the gates, whatever
/// words they draw, and the opened words are those of the values that are opened.
pub fn runs_compute_values()
    ensures { (dealt_kinds kinds : List Kind) (inputs : Values) (dealt : Number → Values) (dealt_sizes : List ℕ) (gates : List GateValue) (tapes : Tapes) →
        AllHeld dealt_kinds inputs dealt → sizes_of inputs ≡ dealt_sizes → ((i : Number) → sizes_of (dealt i) ≡ dealt_sizes) →
        AllKinded dealt_kinds kinds 0 gates → AllSizesSuit dealt_sizes [] gates →
        Ready (run_gates dealt dealt_sizes [] gates) (λ i. []) tapes →
        Computed kinds inputs [] gates (run_values (run_gates dealt dealt_sizes [] gates) (λ i. []) tapes)
        (run_opened (run_gates dealt dealt_sizes [] gates) (λ i. []) tapes) }
{}

/// Law: what the simulator makes for a miner of its own shares, how many words each miner draws and all scripts are the same
/// whatever the other two were dealt: no local gate of a miner reads another one's shares.
pub fn simulators_read_own_shares_alone()
    ensures { (i : Number) (dealt others : Number → Values) (dealt_sizes sizes : List ℕ) (gates : List GateValue) →
        dealt i ≡ others i → SameFor i (run_gates dealt dealt_sizes sizes gates) (run_gates others dealt_sizes sizes gates) }
{}
