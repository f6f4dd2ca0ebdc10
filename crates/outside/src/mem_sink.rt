// A sink in memory.
ghost use Rattle.std.specs.Prelude.{◌≡◌, ◌<◌, []};

use crate::fault_plan::FaultPlan;
use crate::{FileErr, Sink};
use std::alloc::Global;

/// A sink that keeps in memory what it was given, and what it lost.
#[derive(Drop)]
pub struct MemSink {
    bytes: Vec<u8>,
    lost: Vec<u8>,
    plan: FaultPlan,
    shortages: u64,
    most: usize,
    ghost some: { 0 < most },
}

impl MemSink {
    ghost use Rattle.outside.specs.MemSink.{bytes_in, plan_in};
    ghost use Rattle.outside.specs.Plan.{fresh_plan};

    /// An empty sink that takes at most 7 bytes at a time, so that a caller has to go on. The calls with these numbers fail, counted from 0.
    pub fn new(alloc: Global, fails: Vec<u64>) -> Self
        ensures empty_sink { bytes_in result ≡ [] }
        ensures plan { plan_in result ≡ fresh_plan fails }
    {
        MemSink::slow(alloc, fails, 7)
    }

    /// An empty sink that takes at most so many bytes at a time. The calls with these numbers fail, counted from 0.
    pub fn slow(alloc: Global, fails: Vec<u64>, most: usize) -> Self
        requires some { 0 < most }
        ensures empty_sink { bytes_in result ≡ [] }
        ensures plan { plan_in result ≡ fresh_plan fails }
    {
        MemSink {
            bytes: Vec::new(alloc),
            lost: Vec::new(alloc),
            plan: FaultPlan::new(fails),
            shortages: 0,
            most,
        }
    }

    /// How many calls were made, failed ones too.
    pub fn calls_made(&self) -> u64
        ensures { result ≡ (plan_in self.now).calls }
    {
        self.plan.calls()
    }

    /// All that was put: it is no call of the sink.
    pub fn bytes(&self) -> &[u8]
        ensures { result.now ≡ bytes_in self.now }
    {
        &self.bytes
    }
}

impl Sink for MemSink {
    ghost use Rattle.outside.specs.MemSink.{sink_state};

    ghost state = { sink_state };

    /// At most so many bytes at a time as the sink takes. What a call loses is kept; one that is to fail has no memory where there is none for that.
    fn put(&mut self, piece: &[u8]) -> Result<usize, FileErr> {
        if self.plan.next_fails() {
            if self.lost.extend_from_slice(piece).is_ok() {
                return Err(FileErr::Failed);
            }
            self.shortages = self.shortages.saturating_add(1);
            return Err(FileErr::Memory);
        }
        let count = piece.len().min(self.most);
        if self.bytes.extend_from_slice(&piece[..count]).is_err() {
            let _ = self.lost.extend_from_slice(piece);
            self.shortages = self.shortages.saturating_add(1);
            return Err(FileErr::Memory);
        }
        Ok(count)
    }
}
