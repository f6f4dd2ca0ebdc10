ghost use Rattle.std.specs.Prelude.{◌≡◌, IfOk};

use proto_core::{Link, Msg};
use std::alloc::{AllocError, Global};
use std::marker::Model;

/// A message, and the link on which it came.
#[derive(Drop)]
pub struct Arrival {
    link: Link,
    message: Vec<u64>,
}

impl Model for Arrival {
    ghost use Rattle.protocol_model.specs.Arrivals.{Arrival as AnArrival};

    ghost Value = { AnArrival };

    ghost view = { λ a. record { link = a.link; message = a.message.items } };
}

impl Arrival {
    /// The message, as it came on this link. Fails where memory runs out.
    pub(crate) fn new(alloc: Global, link: Link, message: &Msg) -> Result<Self, AllocError>
        ensures { IfOk result (λ a. a ≡ record { link = link; message = message.now }) }
    {
        Ok(Arrival {
            link,
            message: message.words().to_vec(alloc)?,
        })
    }

    /// The link on which it came.
    pub fn link(&self) -> Link
        ensures { result ≡ self.now.link }
    {
        self.link
    }

    /// The words of the message, for their new owner.
    pub fn into_message(self) -> Vec<u64>
        ensures { result.items ≡ self.message }
    {
        self.message
    }
}
