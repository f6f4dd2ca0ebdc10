// What is true of the messages of three views.
ghost use Rattle.std.specs.Prelude.{◌≡◌, ◌≢◌, ℕ, List, [], length};
ghost use Rattle.proto_core.specs.declared.link.Link.{Link};
ghost use Rattle.proto_core.specs.declared.party.Number.{Number};
ghost use Rattle.proto_core.specs.Script.{Move};
ghost use Rattle.merged_orders.specs.Merging.{Orders, Stuck, links_to};
ghost use Rattle.merged_views.specs.Brought.{AreBrought, AreNext, Got, IsRunOf, Run, orders_of};
ghost use Rattle.merged_views.specs.Unreached.{IsFirstUnreached, NoneIsLeftBelow};

/// Law: where each message is the next of its link and none is missing, a schedule that goes as far as it can and leaves none of them is
/// accepted and brings each miner just these messages.
pub fn next_messages_are_brought()
    ensures { (run : Run) (got : Got) (ls : List Link) (left : Orders) →
        IsRunOf run → AreNext run.full got → Stuck run.scripts (orders_of got) ls left → ((i : Number) → left i ≡ []) →
        AreBrought run got ls }
{}

/// Law: of the messages that an accepted schedule brings, each is the next of its link and none is missing.
pub fn brought_messages_are_next()
    ensures { (run : Run) (got : Got) (ls : List Link) → IsRunOf run → AreBrought run got ls → AreNext run.full got }
{}

/// Law: of messages that an accepted schedule brings no schedule that goes as far as it can leaves any.
pub fn nothing_is_left()
    ensures { (run : Run) (got : Got) (ls other : List Link) (left : Orders) (i : Number) →
        IsRunOf run → AreBrought run got ls → Stuck run.scripts (orders_of got) other left → left i ≡ [] }
{}

/// Law: of the lowest miner of which a schedule leaves entries, where it goes as far as it can, the first that is left is the first that no
/// schedule within the orders reaches.
pub fn what_is_left_is_unreached()
    ensures { (scripts : Number → List Move) (orders left : Orders) (ls : List Link) (i : Number) →
        Stuck scripts orders ls left → NoneIsLeftBelow left i → left i ≢ [] → IsFirstUnreached scripts orders i (length (links_to i ls)) }
{}
