ghost use Rattle.std.specs.Prelude.{◌≡◌, ◌≤◌, ℕ, List, [], All, length, map};
ghost use Rattle.proto_core.specs.declared.party.Number.{Number};
ghost use Rattle.proto_core.specs.Net.{nothing};
ghost use Rattle.gates.specs.declared.gate.Gate.{Gate as GateValue};
ghost use Rattle.protocol_model.specs.Arrivals.{arrived};
ghost use Rattle.protocol_model.specs.Gates.{gates_script};
ghost use Rattle.protocol_model.specs.Network.{Accepted, Delivery, net, order_of};
ghost use Rattle.protocol_model.specs.Runs.{nodes_of, run_values};
ghost use Rattle.protocol_model.specs.Views.{made_values};
ghost use Rattle.value_file.specs.declared.inputs.Entry.{Entry};
ghost use Rattle.value_file.specs.Public.{part_of};
ghost use Rattle.input_share.specs.Dealing.{need_of};
ghost use Rattle.tape_file.specs.Tapes.{FourTapes};
ghost use Rattle.input_share.specs.AddUp.{HasWords};
ghost use Rattle.proto_core.specs.Lists.{AreWords};
ghost use Rattle.shared_gates.specs.Computed.{Computed};
ghost use Rattle.shared_gates.specs.Kinds.{AllKinded};
ghost use Rattle.shared_gates.specs.Shares.{AllHeld, Kind};
ghost use Rattle.view_model.specs.Dealing.{dealt_to};
ghost use Rattle.view_model.specs.Held.{private_kinds, private_values};
ghost use Rattle.view_model.specs.TapeMaps.{AreTapes, CanRun, Reaches, Correspond, miners_of, no_values, gates_dealt, to_simulated, twin};
ghost use Rattle.view_model.specs.Seen.{Seen, seen_by, gates_made, made_for, opened_by_all};
ghost use Rattle.view_model.specs.Counting.{IsRunOn, AllGive, Alike, IsTwin, AreDistinct, AsMany};

/// Law: the tapes of a whole run, the dealer's with them, correspond one to one with those that a miner's view is made of;
/// each keeps its length, and the miner's own tape its words.
pub fn whole_tapes_correspond()
    ensures { (i : Number) (entries : List Entry) (gates : List GateValue) (t : FourTapes) →
        AreTapes t → CanRun entries gates t → Correspond i entries gates t }
{}

/// Law: the messages of a miner's view are those that come to it in the net of the three miners, where the delivery is
/// accepted.
pub fn views_hold_what_comes()
    ensures { (i : Number) (entries : List Entry) (gates : List GateValue) (t : FourTapes) (delivery : Delivery) →
        AreTapes t → need_of entries ≤ length t.dealer → Reaches entries gates t →
        net (λ k. gates_script k (gates_dealt entries t.dealer gates)) delivery ≡ Accepted →
        arrived (nodes_of (gates_dealt entries t.dealer gates) no_values (miners_of t)) i nothing
        (order_of (λ k. gates_script k (gates_dealt entries t.dealer gates)) delivery)
        ≡ (seen_by i entries gates t delivery).got }
{}

/// Law: what a miner sees of a run is what the simulator makes of the public part of the inputs, the opened words and the
/// corresponding tapes, whatever the delivery.
pub fn views_are_simulated()
    ensures { (i : Number) (entries : List Entry) (gates : List GateValue) (t : FourTapes) (delivery : Delivery) →
        AreTapes t → need_of entries ≤ length t.dealer → Reaches entries gates t →
        seen_by i entries gates t delivery
        ≡ made_for i (part_of entries) gates (opened_by_all entries gates t) (to_simulated i entries gates t) delivery }
{}

/// Law: the shares that a miner has of all values are those that the simulator makes.
pub fn shares_are_simulated()
    ensures { (i : Number) (entries : List Entry) (gates : List GateValue) (t : FourTapes) →
        AreTapes t → need_of entries ≤ length t.dealer → Reaches entries gates t →
        run_values (gates_dealt entries t.dealer gates) no_values (miners_of t) i
        ≡ made_values i (gates_made i (part_of entries) (to_simulated i entries gates t).dealer gates) []
        (opened_by_all entries gates t) (miners_of (to_simulated i entries gates t)) }
{}

/// Law: of two inputs that are alike, each tape has a twin with which the second inputs give the same view, and twinned back
/// that is the first tape.
pub fn twins_give_the_same_view()
    ensures { (i : Number) (first second : List Entry) (gates : List GateValue) (opened : List ℕ) (t : FourTapes) →
        Alike first second gates opened → IsRunOn first gates t → IsTwin i first second gates t (twin i first second gates t) }
{}

/// Law: of two inputs that are alike, as many tapes give a view with the one as with the other: twins of distinct tapes are
/// distinct, and each gives the second inputs this view.
pub fn twins_are_as_many()
    ensures { (i : Number) (first second : List Entry) (gates : List GateValue) (opened : List ℕ) (delivery : Delivery) (view : Seen)
        (ts : List FourTapes) →
        Alike first second gates opened → AllGive i first gates delivery view ts → AreDistinct ts →
        AsMany i second gates delivery view ts (map (twin i first second gates) ts) }
{}

/// Law: what the three miners are dealt of the private inputs are shares of these, numbers modulo 2^64 and truth values under
/// xor; so after a run they hold values that fit the gates over these inputs, and open those that are opened.
pub fn dealt_runs_compute_values()
    ensures dealt { (entries : List Entry) (dealer : List ℕ) →
        All HasWords entries → AreWords dealer → need_of entries ≤ length dealer →
        AllHeld (private_kinds entries) (private_values entries) (dealt_to entries dealer) }
    ensures computed { (entries : List Entry) (gates : List GateValue) (t : FourTapes) (kinds : List Kind) →
        AreTapes t → All HasWords entries → need_of entries ≤ length t.dealer → Reaches entries gates t →
        AllKinded (private_kinds entries) kinds 0 gates →
        Computed kinds (private_values entries) [] gates
        (run_values (gates_dealt entries t.dealer gates) no_values (miners_of t)) (opened_by_all entries gates t) }
{}
