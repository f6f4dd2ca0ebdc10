// What is true of a miner that reads bytes.
ghost use Rattle.std.specs.Prelude.{ℕ, List};
ghost use Rattle.proto_core.specs.Strand.{Mail, Strand};
ghost use Rattle.served_bytes.specs.Front.{Framed};
ghost use Rattle.served_bytes.specs.Served.{Coming};
ghost use Rattle.served_bytes.specs.Reading.{ReadsFrameByFrame};
ghost use Rattle.served_bytes.specs.Laws.{ServesItsMessages, EndsOnHonestBytes, GoesToItsWait};

/// Law: whatever bytes come, a miner does with them what it does with the messages that it has read of them, and stops where it then stands; and the
/// bytes of each link begin with the messages that it has read of it.
pub fn bytes_are_served_as_messages()
    ensures { (framed : List ℕ → Framed) (s : Strand ℕ) (bytes : Coming) → ServesItsMessages framed s bytes }
{}

/// Law: bytes that begin with all messages with which a run ends lead to this end.
pub fn honest_bytes_are_served()
    ensures { (framed : List ℕ → Framed) (s : Strand ℕ) (mail : Mail) (bytes : Coming) → EndsOnHonestBytes framed s mail bytes }
{}

/// Law: as far as a miner comes before it waits, it reads nothing.
pub fn nothing_is_read_before_a_wait()
    ensures { (framed : List ℕ → Framed) (s : Strand ℕ) (bytes : Coming) → GoesToItsWait framed s bytes }
{}

/// Law: a miner that reads frame by frame, each from the link for which it waits, comes to what the bytes lead to: at each moment what is still to come
/// leads on from where it stands, and where it stops it has done all.
pub fn bytes_are_read_frame_by_frame()
    ensures { (framed : List ℕ → Framed) (s : Strand ℕ) (bytes : Coming) → ReadsFrameByFrame framed s bytes }
{}
