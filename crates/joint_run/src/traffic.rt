// What went over the links.
ghost use Rattle.std.specs.Prelude.{◌≡◌, [], ◌∷◌, ◌++◌, OnOk, if◌then◌else◌};
ghost use Rattle.proto_core.specs.declared.link.Link.{Link as LinkValue};
ghost use Rattle.proto_core.specs.Strand.{same_link};
ghost use Rattle.joint_run.specs.Three.{carried};

use proto_core::{Link, Messages, Msg};
use std::alloc::{AllocError, Global};

/// The messages of each of the six links, oldest first.
pub struct Traffic {
    on12: Messages,
    on13: Messages,
    on21: Messages,
    on23: Messages,
    on31: Messages,
    on32: Messages,
}

// Written out, so that an early exit calls this once.
impl Drop for Traffic {
    fn drop(self) {
        let Traffic {
            on12: _,
            on13: _,
            on21: _,
            on23: _,
            on31: _,
            on32: _,
        } = self;
    }
}

impl Traffic {
    /// No message on any link.
    pub fn new(alloc: Global) -> Self
        ensures { (l : LinkValue) → carried result l ≡ [] }
    {
        Traffic {
            on12: Messages::new(alloc),
            on13: Messages::new(alloc),
            on21: Messages::new(alloc),
            on23: Messages::new(alloc),
            on31: Messages::new(alloc),
            on32: Messages::new(alloc),
        }
    }

    /// The messages of a link.
    pub fn on(&self, link: Link) -> &Messages
        ensures { result.now ≡ carried self.now link }
    {
        match link {
            Link::Link12 => &self.on12,
            Link::Link13 => &self.on13,
            Link::Link21 => &self.on21,
            Link::Link23 => &self.on23,
            Link::Link31 => &self.on31,
            Link::Link32 => &self.on32,
        }
    }

    /// One message more on a link.
    pub fn push(&mut self, link: Link, msg: &Msg) -> Result<(), AllocError>
        ensures { OnOk result ((l : LinkValue) → carried self.new l ≡ carried self.old l ++ (if same_link link l then msg.now ∷ [] else [])) }
    {
        match link {
            Link::Link12 => self.on12.push(msg),
            Link::Link13 => self.on13.push(msg),
            Link::Link21 => self.on21.push(msg),
            Link::Link23 => self.on23.push(msg),
            Link::Link31 => self.on31.push(msg),
            Link::Link32 => self.on32.push(msg),
        }
    }

    /// Two messages more on a link.
    pub(crate) fn push_two(
        &mut self,
        link: Link,
        first: &Msg,
        second: &Msg,
    ) -> Result<(), AllocError>
        ensures { OnOk result ((l : LinkValue) → carried self.new l ≡ carried self.old l ++ (if same_link link l then first.now ∷ second.now ∷ [] else [])) }
    {
        match link {
            Link::Link12 => add_two(&mut self.on12, first, second),
            Link::Link13 => add_two(&mut self.on13, first, second),
            Link::Link21 => add_two(&mut self.on21, first, second),
            Link::Link23 => add_two(&mut self.on23, first, second),
            Link::Link31 => add_two(&mut self.on31, first, second),
            Link::Link32 => add_two(&mut self.on32, first, second),
        }
    }
}

/// Two messages more in a list.
fn add_two(messages: &mut Messages, first: &Msg, second: &Msg) -> Result<(), AllocError>
    ensures { OnOk result (messages.new ≡ messages.old ++ first.now ∷ second.now ∷ []) }
{
    messages.push(first)?;
    messages.push(second)?;
    Ok(())
}
