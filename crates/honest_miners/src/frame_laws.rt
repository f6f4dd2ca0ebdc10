// What is read of bytes that begin the frames of what was sent.
ghost use Rattle.std.specs.Prelude.{ℕ, List};
ghost use Rattle.proto_core.specs.declared.link.Link.{Link};
ghost use Rattle.proto_core.specs.declared.party.Number.{Number};
ghost use Rattle.proto_core.specs.Strand.{Mail, Strand};
ghost use Rattle.served_bytes.specs.Served.{Coming};
ghost use Rattle.wire.specs.declared.fields.Hello.{Hello};
ghost use Rattle.honest_miners.specs.JoinedFrames.{EndsWhereAllCame, FramesJoin, HellosComeWhole, ReadsFrames};

/// Law: where the bytes of a peer begin a hello and what follows it, they end within the hello, or it is read, and a front of the rest is left.
pub fn fronts_of_hellos_are_hellos()
    ensures { (bytes more : List ℕ) (hello : Hello) → HellosComeWhole bytes more hello }
{}

/// Law: a miner whose bytes begin the frames of these messages on each link reads them in order, and never meets bytes that are no frame.
pub fn fronts_of_frames_are_frames()
    ensures { (s : Strand ℕ) (bytes : Coming) (mail : Mail) → ReadsFrames s bytes mail }
{}

/// Law: of three nodes whose run can be framed, where what came on each link begins the frames of what was sent on it, what was read begins what was
/// sent. Nothing is presumed of what was sent: that it can be framed follows.
///
/// Where all that was sent came, and each does with its bytes at least what it does with the messages that they spell, each has done all of the run.
pub fn frames_join_nodes()
    ensures read { (nodes : Number → Strand ℕ) (full : Mail) (outputs : Number → ℕ) (came : Link → List ℕ) (mail : Mail) →
        FramesJoin nodes full outputs came mail }
    ensures all { (nodes : Number → Strand ℕ) (full : Mail) (outputs : Number → ℕ) (came : Number → Coming) →
        EndsWhereAllCame nodes full outputs came }
{}
