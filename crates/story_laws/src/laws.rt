// What is true of each miner at work.
ghost use Rattle.std.specs.Prelude.{ℕ, List, Result};
ghost use Rattle.proto_core.specs.declared.party.Number.{Number};
ghost use Rattle.proto_core.specs.declared.link.Link.{Link};
ghost use Rattle.miner_core.specs.declared.answer.MinerErr.{MinerErr};
ghost use Rattle.miner_core.specs.declared.answer.Step.{Step};
ghost use Rattle.miner_core.specs.Story.{Story};
ghost use Rattle.miner_core.specs.Streams.{StreamState};
ghost use Rattle.story_laws.specs.Stories.{WaitsAtItsLinks, SendsFrames};
ghost use Rattle.story_laws.specs.WholeTapes.{AnswersByItsStory};

/// Law: a miner that waits names a link that ends at it, and so does one that refuses a message, whatever code, shares, tape and budget
/// it was made with, and whatever messages came to it.
pub fn miners_wait_at_their_links()
    ensures { (i : Number) (s : Story) → WaitsAtItsLinks i s }
{}

/// Law: each message that it sends has 1 to 2,048 words, and goes by a link that begins at it.
pub fn miners_send_frames()
    ensures { (i : Number) (s : Story) → SendsFrames i s }
{}

/// Law: a miner that has its whole tape by itself answers a delivery by its story, which is then of one tape: where the message came, the answer says
/// where it stands with it; where it had ended, it is as before; and once it was lost, so is its story.
pub fn whole_tapes_make_one_story()
    ensures { (i : Number) (l : Link) (m : List ℕ) (before after : StreamState) (answer : Result Step MinerErr) →
        AnswersByItsStory i l m before after answer }
{}
