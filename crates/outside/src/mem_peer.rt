// One peer of the links in memory.
ghost use Rattle.std.specs.Prelude.{◌≡◌, ◌≤◌, [], ◌++◌, length, take, drop, min, OnOk, OnErr, vec_len};

use std::alloc::{AllocError, Global};

/// What one peer was sent, and the bytes that come from it, of which the first were taken.
#[derive(Drop)]
pub(crate) struct MemPeer {
    sent: Vec<u8>,
    coming: Vec<u8>,
    taken: usize,
    ghost within: { taken ≤ vec_len coming },
}

impl MemPeer {
    ghost use Rattle.outside.specs.MemPeer.{sent_to, coming_from};

    pub(crate) fn new(alloc: Global) -> Self
        ensures sent { sent_to result ≡ [] }
        ensures coming { coming_from result ≡ [] }
    {
        MemPeer {
            sent: Vec::new(alloc),
            coming: Vec::new(alloc),
            taken: 0,
        }
    }

    pub(crate) fn sent(&self) -> &[u8]
        ensures { result.now ≡ sent_to self.now }
    {
        &self.sent
    }

    // Lets these bytes come after those that are still to come.
    pub(crate) fn arrive(&mut self, bytes: &[u8]) -> Result<(), AllocError>
        ensures ok { OnOk result (coming_from self.new ≡ coming_from self.old ++ bytes.now) }
        ensures err { OnErr result (coming_from self.new ≡ coming_from self.old) }
        ensures sent { sent_to self.new ≡ sent_to self.old }
    {
        self.coming.extend_from_slice(bytes)
    }

    // Keeps these bytes after those that it was sent.
    pub(crate) fn send(&mut self, bytes: &[u8]) -> Result<(), AllocError>
        ensures ok { OnOk result (sent_to self.new ≡ sent_to self.old ++ bytes.now) }
        ensures err { OnErr result (sent_to self.new ≡ sent_to self.old) }
        ensures coming { coming_from self.new ≡ coming_from self.old }
    {
        self.sent.extend_from_slice(bytes)
    }

    // The next bytes that come, at most 7 at a time.
    pub(crate) fn next(&self, most: usize) -> &[u8]
        ensures { result.now ≡ take (min most 7) (coming_from self.now) }
    {
        let rest = &self.coming[self.taken..];
        let count = most.min(7).min(rest.len());
        &rest[..count]
    }

    // These bytes were taken.
    pub(crate) fn pass(&mut self, count: usize)
        requires { count ≤ length (coming_from self.old) }
        ensures coming { coming_from self.new ≡ drop count (coming_from self.old) }
        ensures sent { sent_to self.new ≡ sent_to self.old }
    {
        self.taken += count;
    }
}
