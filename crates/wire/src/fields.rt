// Hellos: what two miners tell each other before the first message.
ghost use Rattle.std.specs.Prelude.{◌≡◌, Some, IfNone};
ghost use Rattle.wire.specs.Hellos.{field_text, first_difference};

use std::fmt;

/// What a miner tells a peer before its first message.
#[derive(Clone, Copy)]
pub struct Hello {
    /// The version of hellos and frames.
    pub version: u8,
    /// The number of the miner that sends it.
    pub sender: u8,
    /// The number of the miner to which it is sent.
    pub receiver: u8,
    /// The digest of the code that the sender runs, as `code_digest` gives it.
    pub code: [u8; 32],
    /// The digest of what everybody knows of the run, as `public_digest` gives it.
    pub public: [u8; 32],
}

impl Hello {
    /// The hello for a peer: this one with another receiver.
    pub fn to_peer(&self, peer: u8) -> Hello
        ensures { result ≡ record self.now { receiver = peer } }
    {
        Hello {
            receiver: peer,
            ..*self
        }
    }

    /// The hello that a peer has to send the sender of this one: the same, with sender and receiver exchanged for the two.
    pub fn from_peer(&self, peer: u8) -> Hello
        ensures { result ≡ record self.now { sender = peer; receiver = self.now.sender } }
    {
        Hello {
            sender: peer,
            receiver: self.sender,
            ..*self
        }
    }
}

/// A field of a hello, in the order in which hellos are compared.
#[derive(Clone, Copy)]
pub enum Field {
    Version,
    Sender,
    Receiver,
    Code,
    Public,
}

/// Written as its name: `version`, `sender`, `receiver`, `code`, `public`.
impl fmt::Display for Field {
    ghost output = { λ field. Some (field_text field) };

    fn fmt<W: fmt::Write>(&self, f: &mut fmt::Formatter<W>) -> fmt::Result {
        f.write_str(match self {
            Field::Version => "version",
            Field::Sender => "sender",
            Field::Receiver => "receiver",
            Field::Code => "code",
            Field::Public => "public",
        })
    }
}

/// The first field in which the hello that came isn't the expected one; `None` where they are the same.
#[tactic(auto, unfolding(crate::specs::Hellos::first_difference))]
pub fn mismatch(expected: &Hello, came: &Hello) -> Option<Field>
    ensures first { result ≡ first_difference expected.now came.now }
    ensures same { IfNone result (expected.now ≡ came.now) }
{
    if expected.version != came.version {
        Some(Field::Version)
    } else if expected.sender != came.sender {
        Some(Field::Sender)
    } else if expected.receiver != came.receiver {
        Some(Field::Receiver)
    } else if expected.code.as_slice() != came.code.as_slice() {
        Some(Field::Code)
    } else if expected.public.as_slice() != came.public.as_slice() {
        Some(Field::Public)
    } else {
        None
    }
}
