// A sink of bytes, as standard output.
ghost use Rattle.std.specs.Prelude.{◌≡◌, ◌<◌, ◌≤◌, true, length, take, IfOk, OnOk, OnErr};
ghost use Rattle.outside.specs.Causes.{HasCause, HasShortage, IsSteady};
ghost use Rattle.outside.specs.Sink.{SinkState, SameSink, Appends, Loses, PutsFront};

use crate::FileErr;

/// A sink of bytes, as standard output.
pub trait Sink {
    ghost state: { Self → SinkState };

    /// Takes some of the bytes, from the front, at least one. Taking none is a fault, and the bytes are lost. It is asked for one byte or more, so that
    /// what is lost tells of each call that took none.
    fn put(&mut self, piece: &[u8]) -> Result<usize, FileErr>
        requires { 0 < length piece.now }
        ensures most { IfOk result (λ k. k ≤ length piece.now) }
        ensures some { IfOk result (λ k. 0 < k) }
        ensures ok { IfOk result (λ k. Appends (state self.old) (state self.new) (take k piece.now)) }
        ensures err { OnErr result (SameSink (state self.old) (state self.new)) }
        ensures lost { Loses result (state self.old) (state self.new) piece.now }
        ensures cause { HasCause (state self.old).faults (state self.new).faults result }
        ensures shortage { HasShortage (state self.old).shortages (state self.new).shortages result }
        ensures steady { (state self.old).steady ≡ true →
            IsSteady (state self.old).faults (state self.new).faults result ⊥ }
        ensures still { (state self.old).steady ≡ true → (state self.new).steady ≡ true };
}

/// Puts all the bytes, or a front of them where the sink fails or has no memory; the others are lost then.
pub fn put_all<S: Sink>(sink: &mut S, bytes: &[u8]) -> Result<(), FileErr>
    ensures ok { OnOk result (Appends (S.state sink.old) (S.state sink.new) bytes.now) }
    ensures front { PutsFront result bytes.now (S.state sink.old) (S.state sink.new) }
    ensures cause { HasCause (S.state sink.old).faults (S.state sink.new).faults result }
    ensures shortage { HasShortage (S.state sink.old).shortages (S.state sink.new).shortages result }
    ensures steady { (S.state sink.old).steady ≡ true →
        IsSteady (S.state sink.old).faults (S.state sink.new).faults result ⊥ }
    ensures still { (S.state sink.old).steady ≡ true → (S.state sink.new).steady ≡ true }
{
    let mut done = 0;
    while done < bytes.len() {
        done += sink.put(&bytes[done..])?;
    }
    Ok(())
}
