// What is true of the words that a miner draws of its tape.
ghost use Rattle.std.specs.Prelude.{ℕ, List};
ghost use Rattle.proto_core.specs.declared.party.Number.{Number};
ghost use Rattle.proto_core.specs.declared.link.Link.{Link};
ghost use Rattle.protocol_model.specs.Runs.{Tapes};
ghost use Rattle.language_model.specs.Effects.{World};
ghost use Rattle.language_model.specs.Reports.{Offered};
ghost use Rattle.verified_code.specs.Steps.{Function};
ghost use Rattle.code_runs.specs.Dealt.{Dealt};
ghost use Rattle.miner_core.specs.Story.{Story};
ghost use Rattle.story_laws.specs.DrawnLaws.{CodeKeepsToItsTapes, CountsWhatItDrew, DrawsOfItsTape, ReadsWhatItDraws, ReadWhatTheyDraw};

/// Law: at every state a miner has drawn at most as many words as its tape has, whatever code, shares, tape and budget it was made with, and
/// whatever messages came to it. With a tape that has fewer its run ends where a gate finds too few. Where its run has ended, these are the
/// words that its gates draw, and it has counted no more words of any miner's tape than the miner was told that there are.
///
/// The report of a run of any code counts no more words of the dealer's tape and of each miner's than there are. Where three run code that may run
/// on what was dealt, it counts exactly those that each of them has drawn where it stops.
pub fn miners_draw_of_their_tapes()
    ensures miner { (i : Number) (s : Story) → DrawsOfItsTape i s }
    ensures report { (w : World) (c : List Function) (budget : ℕ) (answers : List ℕ) → CodeKeepsToItsTapes w c budget answers }
    ensures shared { (o : Offered) (d : Dealt) (c : List Function) (budget : ℕ) (tapes : Tapes) (i : Number) (s : Story) →
        CountsWhatItDrew o d c budget tapes i s }
{}

/// Law: a miner reads only the words that it draws. With any other tape that is no longer and has the same words up to there, it has sent,
/// opened and told the same, has the same messages unread, has drawn as many words, and has ended with the same or waits for the same message.
///
/// So of three whose messages are delivered in one order: the same messages come, and each does the same.
pub fn miners_read_what_they_draw()
    ensures one { (i : Number) (s : Story) (tape : List ℕ) → ReadsWhatItDraws i s tape }
    ensures three { (stories : Number → Story) (links : List Link) (tapes others : Tapes) → ReadWhatTheyDraw stories links tapes others }
{}
