// What is true of a miner that is started again from its journal.
ghost use Rattle.std.specs.Prelude.{ℕ, List};
ghost use Rattle.proto_core.specs.Strand.{Strand};
ghost use Rattle.served_bytes.specs.Served.{Coming};
ghost use Rattle.kept_frames.specs.Kept.{Kept, ReadsKeptFrames, SendsTheSame};

/// Law: where the messages of a journal are replayed, the miner is as one that has read their frames from its links, before the bytes that
/// are still to come.
pub fn kept_frames_are_read()
    ensures { (s : Strand ℕ) (ks : List Kept) (rest : Coming) → ReadsKeptFrames s ks rest }
{}

/// Law: what a miner sends on a link by its journal it sends first by each journal that goes on from there; so the message of a given number on a link
/// is the same after each restart.
pub fn messages_stay_the_same()
    ensures { (s : Strand ℕ) (ks more : List Kept) → SendsTheSame s ks more }
{}
