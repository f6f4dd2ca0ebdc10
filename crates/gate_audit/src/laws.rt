// What is true of three views of a run of gates.
ghost use Rattle.std.specs.Prelude.{◌≡◌, List, [], All};
ghost use Rattle.proto_core.specs.declared.link.Link.{Link};
ghost use Rattle.proto_core.specs.declared.party.Number.{Number};
ghost use Rattle.gates.specs.declared.gate.Gate.{Gate as GateValue};
ghost use Rattle.value_file.specs.declared.inputs.Entry.{Entry};
ghost use Rattle.value_file.specs.declared.public.PublicEntry.{PublicEntry};
ghost use Rattle.value_file.specs.Public.{part_of};
ghost use Rattle.tape_file.specs.Tapes.{FourTapes};
ghost use Rattle.input_share.specs.AddUp.{HasWords};
ghost use Rattle.merged_orders.specs.Merging.{Orders, Stuck};
ghost use Rattle.merged_views.specs.Brought.{orders_of};
ghost use Rattle.gate_audit.specs.Shown.{Views, HaveShareWords, found, got_of};
ghost use Rattle.gate_audit.specs.Passing.{AreSeen, BeginWith, IsGiven, IsReadBack, PassSteps, scripts_found};

/// Law: where the steps find nothing wrong in three views, on tapes that begin with what is found, and a schedule that goes as far as it can
/// leaves no message, the views are what the miners see of the found inputs on these tapes by this schedule, which is accepted; and the found
/// inputs have this public part.
pub fn passed_views_are_seen()
    ensures seen { (part : List PublicEntry) (views : Views) (gates : List GateValue) (t : FourTapes) (ls : List Link) (left : Orders) →
        HaveShareWords views → BeginWith part views t → IsGiven (found part views) gates t → PassSteps part views gates t →
        Stuck (scripts_found part views gates t) (orders_of (got_of views)) ls left → ((i : Number) → left i ≡ []) →
        AreSeen (found part views) gates t views ls }
    ensures known { (part : List PublicEntry) (views : Views) (gates : List GateValue) (t : FourTapes) →
        HaveShareWords views → PassSteps part views gates t → part_of (found part views) ≡ part }
{}

/// Law: of what the miners see of inputs on some tapes, by an accepted schedule, the inputs are found and the words that were taken of the
/// tapes. On any tapes that begin with them the steps find nothing wrong, and a schedule that goes as far as it can leaves nothing.
pub fn seen_views_pass()
    ensures { (entries : List Entry) (views : Views) (gates : List GateValue) (t : FourTapes) (ls : List Link) →
        All HasWords entries → HaveShareWords views → IsGiven entries gates t → AreSeen entries gates t views ls →
        IsReadBack entries views gates t }
{}
