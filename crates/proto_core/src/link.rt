ghost use Rattle.std.specs.Prelude.{◌≡◌, ◌≢◌, Some, IfSome, IfNone};
ghost use Rattle.proto_core.specs.declared.link.Link.{Link};
ghost use Rattle.proto_core.specs.Parties.{sender_of, receiver_of, link_text};

use crate::party::Number;
use std::fmt;

/// A link between two miners, its sender first.
#[derive(Clone, Copy, Debug, PartialEq, Eq)]
pub enum Link {
    Link12,
    Link13,
    Link21,
    Link23,
    Link31,
    Link32,
}

impl Link {
    /// Who sends on this link.
    pub fn sender(self) -> Number
        ensures { result ≡ sender_of self }
    {
        match self {
            Link::Link12 | Link::Link13 => Number::One,
            Link::Link21 | Link::Link23 => Number::Two,
            Link::Link31 | Link::Link32 => Number::Three,
        }
    }

    /// Who receives on this link.
    pub fn receiver(self) -> Number
        ensures { result ≡ receiver_of self }
    {
        match self {
            Link::Link21 | Link::Link31 => Number::One,
            Link::Link12 | Link::Link32 => Number::Two,
            Link::Link13 | Link::Link23 => Number::Three,
        }
    }

    /// The link that a text names, as `23` names the one from the second miner to the third; `None` for any other text.
    pub fn from_text(text: &[u8]) -> Option<Link>
        ensures found { IfSome result (λ link. link_text link ≡ text.now) }
        ensures none { IfNone result ((link : Link) → link_text link ≢ text.now) }
    {
        match text {
            [b'1', b'2'] => Some(Link::Link12),
            [b'1', b'3'] => Some(Link::Link13),
            [b'2', b'1'] => Some(Link::Link21),
            [b'2', b'3'] => Some(Link::Link23),
            [b'3', b'1'] => Some(Link::Link31),
            [b'3', b'2'] => Some(Link::Link32),
            _ => None,
        }
    }
}

/// Written as its sender's and its receiver's number: `12`, `13`, `21`, `23`, `31`, `32`.
impl fmt::Display for Link {
    ghost output = { λ link. Some (link_text link) };

    fn fmt<W: fmt::Write>(&self, f: &mut fmt::Formatter<W>) -> fmt::Result {
        f.write_str(match self {
            Link::Link12 => "12",
            Link::Link13 => "13",
            Link::Link21 => "21",
            Link::Link23 => "23",
            Link::Link31 => "31",
            Link::Link32 => "32",
        })
    }
}
