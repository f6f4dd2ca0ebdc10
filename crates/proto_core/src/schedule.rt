ghost use Rattle.std.specs.Prelude.{◌≡◌, ◌↔◌, List, [], ◌∷◌, ◌++◌, length, IsTrue, OnOk, OnErr, slice_get, option_copied};
ghost use Rattle.std.specs.Slice.Iter.{iter_rest};
ghost use Rattle.proto_core.specs.declared.link.Link.{Link};

use crate::link::Link;
use std::alloc::{AllocError, Global};
use std::marker::Model;
use std::slice;

/// The order in which messages are delivered: a list of links, each entry one message of its link.
#[derive(Drop)]
pub struct Schedule {
    links: Vec<Link>,
}

impl Model for Schedule {
    ghost use Rattle.std.specs.Prelude.{List};
    ghost use Rattle.proto_core.specs.declared.link.Link.{Link};

    ghost Value = { List Link };

    ghost view = { λ s. s.links.items };
}

impl Schedule {
    /// No entries.
    pub fn new(alloc: Global) -> Self
        ensures { result ≡ [] }
    {
        Schedule {
            links: Vec::new(alloc),
        }
    }

    /// One entry more at the end; with no memory left the schedule is as before.
    pub fn push(&mut self, link: Link) -> Result<(), AllocError>
        ensures ok { OnOk result (self.new ≡ self.old ++ link ∷ []) }
        ensures err { OnErr result (self.new ≡ self.old) }
    {
        self.links.push(link)?;
        Ok(())
    }

    /// How many entries.
    pub fn len(&self) -> usize
        ensures { result ≡ length self.now }
    {
        self.links.len()
    }

    /// Whether there is no entry.
    pub fn is_empty(&self) -> bool
        ensures { IsTrue result ↔ (self.now ≡ []) }
    {
        self.links.is_empty()
    }

    /// The entry of a number, from 0; `None` past the end.
    pub fn get(&self, at: usize) -> Option<Link>
        ensures { result ≡ slice_get self.now at }
    {
        self.links.get(at).copied()
    }

    /// The entries in order.
    pub fn iter(&self) -> slice::Iter<'_, Link>
        ensures { iter_rest result ≡ self.now }
    {
        self.links.iter()
    }
}
