// A call on a file in memory.

/// A call that changed what a crash may leave of a file: `count` bytes were given to a write, from a place on; or a sync brought all of these bytes
/// to the disk.
pub enum DiskCall {
    Gave { from: u64, count: u64 },
    Kept(Vec<u8>),
}

// Written out, so that an early exit calls this once.
impl Drop for DiskCall {
    fn drop(self) {
        match self {
            DiskCall::Gave { from: _, count: _ } | DiskCall::Kept(_) => {}
        }
    }
}
