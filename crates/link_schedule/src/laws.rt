ghost use Rattle.std.specs.Prelude.{◌≡◌, ◌+◌, ◌≤◌, ℕ, List};
ghost use Rattle.proto_core.specs.declared.link.Link.{Link};
ghost use Rattle.proto_core.specs.declared.party.Number.{Number};
ghost use Rattle.proto_core.specs.Net.{MailBegins, Finishes, into, all_delivered};
ghost use Rattle.proto_core.specs.Script.{Move};
ghost use Rattle.proto_core.specs.Strand.{Mail, Strand};
ghost use Rattle.protocol_model.specs.Along.{MovesAlong};
ghost use Rattle.protocol_model.specs.Network.{counts, made_order, total};
ghost use Rattle.miner_core.specs.OwnCode.{Ended};
ghost use Rattle.link_schedule.specs.Net.{NetState, nodes_in, net_mail, net_posted, after};
ghost use Rattle.link_schedule.specs.Orders.{IsMade};

/// Law: the messages after more deliveries are those before, and then what is under way on each of these links, one after another.
pub fn deliveries_add_up()
    ensures { (net : NetState) (links : List Link) → net_mail (after net links) ≡ all_delivered (nodes_in net) (net_mail net) links }
{}

/// Law: the messages of a link that were delivered begin those that were sent, so the link has none under way exactly where all are delivered.
pub fn what_came_was_sent()
    ensures { (net : NetState) → MailBegins (net_mail net) (net_posted net) }
{}

/// Law: where three nodes finish, and move along scripts, an order that the net makes itself is the one that the scripts make.
pub fn made_orders_are_those_of_the_scripts()
    ensures { (nodes : Number → Strand Ended) (scripts : Number → List Move) (full : Mail) (outputs : Number → Ended) (words : ℕ → ℕ)
        (fuel entry : ℕ) (mail : Mail) (order : List Link) →
        Finishes nodes full outputs → ((i : Number) → MovesAlong (nodes i) (scripts i) (into i full)) → MailBegins mail full →
        total (counts full) ≤ total (counts mail) + fuel → IsMade nodes words entry mail order →
        order ≡ made_order scripts words fuel entry (counts mail) }
{}
