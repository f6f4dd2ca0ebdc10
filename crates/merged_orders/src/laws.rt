ghost use Rattle.std.specs.Prelude.{◌≡◌, ◌<◌, ◌↔◌, ℕ, List, [], length};
ghost use Rattle.proto_core.specs.declared.link.Link.{Link};
ghost use Rattle.proto_core.specs.declared.party.Number.{Number};
ghost use Rattle.proto_core.specs.Net.{Finishes, into};
ghost use Rattle.proto_core.specs.Script.{Move};
ghost use Rattle.proto_core.specs.Strand.{Begins, Mail, Strand};
ghost use Rattle.protocol_model.specs.Along.{MovesAlong};
ghost use Rattle.protocol_model.specs.Arrivals.{arrivals};
ghost use Rattle.protocol_model.specs.Gates.{Gate};
ghost use Rattle.protocol_model.specs.Network.{none_delivered};
ghost use Rattle.protocol_model.specs.Runs.{Shares, Tapes, run_messages, run_values};
ghost use Rattle.merged_orders.specs.Merging.{Merges, Orders, Passes, Reaches, Stuck, Within, AllCome, SameDrawn, links_to};

/// Law: where no miner's next entry can be delivered, whichever was chosen before, no schedule within the three orders goes further. So an
/// entry is reached by some schedule exactly where this one has it.
pub fn furthest_schedules_decide()
    ensures furthest { (scripts : Number → List Move) (orders left : Orders) (ls other : List Link) (i : Number) →
        Stuck scripts orders ls left → Passes scripts none_delivered other → Within orders other → Begins (links_to i other) (links_to i ls) }
    ensures reached { (scripts : Number → List Move) (orders left : Orders) (ls : List Link) (i : Number) (place : ℕ) →
        Stuck scripts orders ls left → Reaches scripts orders i place ↔ (place < length (links_to i ls)) }
{}

/// Law: of three miners that finish, and three orders that have as many messages of each link as the run: a schedule that goes as far as it
/// can merges the orders where it leaves nothing, and where it leaves something no schedule does. Orders that some schedule merges have as
/// many messages of each link as the run.
pub fn orders_are_merged()
    ensures whole { (nodes : Number → Strand (List (List ℕ))) (scripts : Number → List Move) (full : Mail) (outputs : Number → List (List ℕ))
        (orders left : Orders) (ls : List Link) →
        Finishes nodes full outputs → ((i : Number) → MovesAlong (nodes i) (scripts i) (into i full)) → AllCome full orders →
        Stuck scripts orders ls left → ((i : Number) → left i ≡ []) → Merges scripts orders ls }
    ensures none_left { (scripts : Number → List Move) (orders left : Orders) (ls other : List Link) (i : Number) →
        Stuck scripts orders ls left → Merges scripts orders other → left i ≡ [] }
    ensures complete { (nodes : Number → Strand (List (List ℕ))) (scripts : Number → List Move) (full : Mail) (outputs : Number → List (List ℕ))
        (orders : Orders) (ls : List Link) →
        Finishes nodes full outputs → ((i : Number) → MovesAlong (nodes i) (scripts i) (into i full)) → Merges scripts orders ls → AllCome full orders }
{}

/// Law: what comes to a miner by a schedule comes by its own entries alone.
pub fn arrivals_are_by_own_entries()
    ensures { (i : Number) (mail : Mail) (order : List Link) → arrivals i mail order ≡ arrivals i mail (links_to i order) }
{}

/// Law: a run of gates is the same on tapes that have the same words where its miners draw.
pub fn only_drawn_words_matter()
    ensures messages { (gates : List Gate) (values : Shares) (s t : Tapes) (l : Link) →
        SameDrawn gates s t → run_messages gates values s l ≡ run_messages gates values t l }
    ensures values { (gates : List Gate) (values : Shares) (s t : Tapes) →
        SameDrawn gates s t → run_values gates values s ≡ run_values gates values t }
{}
