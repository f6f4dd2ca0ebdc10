// What is true of a miner that has refused a message.
ghost use Rattle.std.specs.Prelude.{ℕ, List, Result};
ghost use Rattle.proto_core.specs.declared.party.Number.{Number};
ghost use Rattle.proto_core.specs.declared.link.Link.{Link};
ghost use Rattle.proto_core.specs.declared.refused.BadMessage.{BadMessage};
ghost use Rattle.miner_core.specs.declared.answer.Step.{Step};
ghost use Rattle.miner_core.specs.declared.answer.MinerErr.{MinerErr};
ghost use Rattle.miner_core.specs.Story.{Story};
ghost use Rattle.miner_core.specs.Laws.{StaysRefused, AnswersAgain};

/// Law: whatever comes to a miner after a message that it refuses, it refuses that message for the same cause, and sends, opens and tells
/// no more; so each later delivery answers the same, unless memory runs out.
pub fn a_refusal_stays()
    ensures stays { (i : Number) (s : Story) (link : Link) (m : List ℕ) → StaysRefused i s link m }
    ensures answers { (i : Number) (before after last : Story) (l k refused : Link) (cause : BadMessage) (m n : List ℕ) (answer : Result Step MinerErr) →
        AnswersAgain i before after last l k refused cause m n answer }
{}
