// What is said in the open between miners.
ghost use Rattle.std.specs.Prelude.{◌≡◌, []};
ghost use Rattle.proto_core.specs.declared.link.Link.{Link as LinkValue};
ghost use Rattle.joint_run.specs.Three.{carried};

use crate::traffic::Traffic;
use std::alloc::Global;

/// What the three miners have said: the messages of each link, and the words that all of them learnt, one after another.
pub struct Transcript {
    pub traffic: Traffic,
    pub opened: Vec<u64>,
}

// Written out, so that an early exit calls this once.
impl Drop for Transcript {
    fn drop(self) {
        let Transcript {
            traffic: _,
            opened: _,
        } = self;
    }
}

impl Transcript {
    /// Nothing yet.
    pub fn new(alloc: Global) -> Self
        ensures traffic { (l : LinkValue) → carried result.traffic l ≡ [] }
        ensures opened { result.opened.items ≡ [] }
    {
        Transcript {
            traffic: Traffic::new(alloc),
            opened: Vec::new(alloc),
        }
    }
}
