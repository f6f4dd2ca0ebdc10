ghost use Rattle.std.specs.Prelude.{◌+◌, ◌≡◌, ◌≤◌, ◌<◌, ℕ, List, length};
ghost use Rattle.proto_core.specs.declared.link.Link.{Link};
ghost use Rattle.proto_core.specs.declared.party.Number.{Number};
ghost use Rattle.proto_core.specs.Net.{MailBegins, Finishes, nothing, all_delivered, into, posted};
ghost use Rattle.proto_core.specs.Script.{Move};
ghost use Rattle.proto_core.specs.Strand.{Begins, Ends, Mail, Strand, run};
ghost use Rattle.protocol_model.specs.Along.{MovesAlong};
ghost use Rattle.protocol_model.specs.Arrivals.{arrivals, arrived, to_come};
ghost use Rattle.protocol_model.specs.Complete.{IsComplete};
ghost use Rattle.protocol_model.specs.Gates.{Gate, AreSound, ArePrivate, Sized, gates_script, gates_strand, needed, sizes_of, nth_value};
ghost use Rattle.protocol_model.specs.Network.{Accepted, Default, Delivery, Shuffled, counted, counts, made_order, net, order_of, total, walked};
ghost use Rattle.protocol_model.specs.Runs.{Shares, Tapes, Ready, RunTogether, nodes_of, run_messages};
ghost use Rattle.protocol_model.specs.Schedules.{AnyOrder, ThreeNodes};
ghost use Rattle.protocol_model.specs.Slots.{IsOwn};
ghost use Rattle.protocol_model.specs.Views.{MadeBy, OneToOne};

/// Law: with more messages a miner does what it did with fewer, and perhaps more.
pub fn more_mail_extends()
    ensures { (s : Strand (List (List ℕ))) (x y : Mail) → MailBegins x y → Begins (run s x).acts (run s y).acts }
{}

/// Law: in every order of deliveries, complete or not, the messages of each link begin those of the full run, and they
/// are those of the full run where no message is under way. So no order makes the miners stand for ever.
pub fn every_order_is_the_run()
    ensures { (nodes : Number → Strand (List (List ℕ))) (full : Mail) (outputs : Number → List (List ℕ)) (order : List Link) →
        Finishes nodes full outputs → AnyOrder nodes full order }
{}

/// Law: three nodes, of which it is only known that what each received begins what the others sent, agree with the full
/// run in what they sent, received and opened; and a node that has ended has done all that it does there.
pub fn three_nodes_agree()
    ensures { (nodes : Number → Strand (List (List ℕ))) (full mail : Mail) (outputs : Number → List (List ℕ)) →
        Finishes nodes full outputs → MailBegins mail (posted nodes mail) → ThreeNodes nodes full outputs mail }
{}

/// Law: three miners that do the same gates, of sound protocols, finish with the joint run's messages and shares, and each
/// opens the joint run's words.
pub fn gates_run_together()
    ensures { (gates : List Gate) (values : Shares) (tapes : Tapes) →
        AreSound gates → Ready gates values tapes → RunTogether gates values tapes }
{}

/// Law: the tapes that a miner's view is made of correspond one to one with those that the miners draw from.
pub fn tapes_correspond()
    ensures { (i : Number) (gates : List Gate) (values : Shares) (tapes : Tapes) →
        AreSound gates → ArePrivate gates → Ready gates values tapes → OneToOne i gates values tapes }
{}

/// Law: what a miner receives in a run, and the shares that it then has, are what the simulator makes of the miner's own
/// shares, the opened words and the corresponding tapes.
pub fn views_are_made()
    ensures { (i : Number) (gates : List Gate) (values : Shares) (tapes : Tapes) →
        AreSound gates → ArePrivate gates → Ready gates values tapes → MadeBy i gates values tapes }
{}

/// Law: along a run of gates each miner moves as the script of the gates says, which holds lengths and no words.
pub fn gates_move_along_their_scripts()
    ensures { (gates : List Gate) (values : Shares) (tapes : Tapes) (i : Number) →
        AreSound gates → Ready gates values tapes →
        MovesAlong (nodes_of gates values tapes i) (gates_script i gates) (into i (run_messages gates values tapes)) }
{}

/// Law: whether a schedule is accepted, which of its entries is refused and which miner it leaves waiting is said by the
/// miners' moves along the run and by how many messages were delivered on each link before: for any nodes that finish, from
/// any state; and of a list of gates by its scripts.
pub fn schedules_are_counted()
    ensures any_state { (nodes : Number → Strand (List (List ℕ))) (scripts : Number → List Move) (full : Mail) (outputs : Number → List (List ℕ))
        (order : List Link) (entry : ℕ) (mail : Mail) →
        Finishes nodes full outputs → ((i : Number) → MovesAlong (nodes i) (scripts i) (into i full)) → MailBegins mail full →
        walked nodes entry mail order ≡ counted scripts entry (counts mail) order }
    ensures gates { (gates : List Gate) (values : Shares) (tapes : Tapes) (delivery : Delivery) →
        AreSound gates → Ready gates values tapes →
        walked (nodes_of gates values tapes) 0 nothing (order_of (λ i. gates_script i gates) delivery)
        ≡ net (λ i. gates_script i gates) delivery }
{}

/// Law: an order that is made of words, as long as messages are under way, is accepted from any state; so are the default
/// delivery and every shuffled one of a list of gates.
pub fn made_orders_are_accepted()
    ensures any_state { (nodes : Number → Strand (List (List ℕ))) (scripts : Number → List Move) (full : Mail) (outputs : Number → List (List ℕ))
        (words : ℕ → ℕ) (fuel entry : ℕ) (mail : Mail) →
        Finishes nodes full outputs → ((i : Number) → MovesAlong (nodes i) (scripts i) (into i full)) → MailBegins mail full →
        total (counts full) ≤ total (counts mail) + fuel →
        counted scripts entry (counts mail) (made_order scripts words fuel entry (counts mail)) ≡ Accepted }
    ensures default { (gates : List Gate) (values : Shares) (tapes : Tapes) →
        AreSound gates → Ready gates values tapes → net (λ i. gates_script i gates) Default ≡ Accepted }
    ensures shuffled { (gates : List Gate) (values : Shares) (tapes : Tapes) (words : ℕ → ℕ) →
        AreSound gates → Ready gates values tapes → net (λ i. gates_script i gates) (Shuffled words) ≡ Accepted }
{}

/// Law: after an accepted schedule, from any state, each message of the full run was delivered and none is under way, and all
/// three miners have ended with their outputs and opened what they open in the full run.
pub fn accepted_orders_are_complete()
    ensures { (nodes : Number → Strand (List (List ℕ))) (full : Mail) (outputs : Number → List (List ℕ)) (order : List Link) (entry : ℕ) (mail : Mail) →
        Finishes nodes full outputs → MailBegins mail full → walked nodes entry mail order ≡ Accepted →
        IsComplete nodes full outputs (all_delivered nodes mail order) }
{}

/// Law: what comes to a miner, entry by entry of an accepted schedule, are the messages of the full run that were still to come,
/// each link's in order: the schedule decides of their order alone.
pub fn messages_come_in_order()
    ensures { (nodes : Number → Strand (List (List ℕ))) (full : Mail) (outputs : Number → List (List ℕ)) (order : List Link) (entry : ℕ) (mail : Mail)
        (i : Number) →
        Finishes nodes full outputs → MailBegins mail full → walked nodes entry mail order ≡ Accepted →
        arrived nodes i mail order ≡ arrivals i (to_come full mail) order }
{}

/// Law: where a miner has run gates, with any messages, each value that was there before is as it was; and so is what stands
/// under any other number that is none of the gates' own, for sound gates whose operands are there.
pub fn gates_keep_other_values()
    ensures before { (i : Number) (gates : List Gate) (values all : List (List ℕ)) (tape : List ℕ) (mail : Mail) (number : ℕ) →
        (run (gates_strand i gates values tape) mail).left ≡ Ends all → number < length values →
        nth_value all number ≡ nth_value values number }
    ensures others { (i : Number) (gates : List Gate) (values all : List (List ℕ)) (tape : List ℕ) (mail : Mail) (number : ℕ) →
        (run (gates_strand i gates values tape) mail).left ≡ Ends all →
        AreSound gates → Sized gates (sizes_of values) → needed gates i ≤ length tape → (IsOwn (length values) gates number → ⊥) →
        nth_value all number ≡ nth_value values number }
{}
