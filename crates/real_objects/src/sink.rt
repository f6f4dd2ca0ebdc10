// A stream of the operating system, such as standard output.
ghost use Rattle.std.specs.Prelude.{◌≡◌};
ghost use Rattle.real_objects.specs.Untold.{untold_sink};

use crate::attempts::write_some;
use outside::{FileErr, Sink};
use std::io::Write;

/// A stream of the operating system. Nothing is told of it; each error is counted.
#[derive(Drop)]
pub struct RealSink<W: Write> {
    stream: W,
    faults: u64,
}

impl<W: Write> RealSink<W> {
    /// The sink that writes to this stream.
    pub fn new(stream: W) -> Self
        ensures { result.faults ≡ 0 }
    {
        RealSink { stream, faults: 0 }
    }
}

impl<W: Write> Sink for RealSink<W> {
    ghost state = { λ s. untold_sink s.faults };

    fn put(&mut self, piece: &[u8]) -> Result<usize, FileErr> {
        if let Some(count) = write_some(&mut self.stream, piece) {
            return Ok(count);
        }
        self.faults = self.faults.saturating_add(1);
        Err(FileErr::Failed)
    }
}
