// Streams whose calls are interrupted, and readers that have more bytes than they may.
ghost use Rattle.std.specs.Prelude.{◌≤◌, IfOk};

use outside::Sink;
use real_objects::{RealSink, read_within};
use row_files::Lines;
use std::alloc::Global;
use std::io::{self, Read, Write};

/// A stream of which some calls are interrupted; the next takes or gives three bytes, and each later one fails.
#[derive(Drop)]
struct Slow {
    interruptions: u32,
    is_done: bool,
}

impl Slow {
    fn count(&mut self, room: usize) -> io::Result<usize>
        ensures { IfOk result (λ n. n ≤ room) }
    {
        if self.interruptions > 0 {
            self.interruptions -= 1;
            return Err(io::Error::from(io::ErrorKind::Interrupted));
        }
        if self.is_done {
            return Err(io::Error::from(io::ErrorKind::BrokenPipe));
        }
        self.is_done = true;
        Ok(room.min(3))
    }
}

impl Write for Slow {
    fn write(&mut self, piece: &[u8]) -> io::Result<usize> {
        self.count(piece.len())
    }

    fn flush(&mut self) -> io::Result<()> {
        Ok(())
    }
}

// An interrupted call is tried again.
fn tell_interrupted(lines: &mut Lines) {
    let mut sink = RealSink::new(Slow {
        interruptions: 2,
        is_done: false,
    });
    let first = sink.put(b"twelve bytes");
    let second = sink.put(b"twelve bytes");
    write!(lines, "interrupted twice: {first:?} {second:?}\n");
}

// How many bytes of a text are read within three.
fn tell_within(alloc: Global, lines: &mut Lines, source: &str) {
    write!(lines, "within three, {source:?}: ");
    match read_within(alloc, source.as_bytes(), 3) {
        Ok(Some(bytes)) => write!(lines, "{} bytes\n", bytes.len()),
        Ok(None) => lines.add("too many\n"),
        Err(_) => lines.add("failed\n"),
    }
}

/// The lines of a stream that is interrupted, and of readers over their bound.
pub fn tell(alloc: Global, lines: &mut Lines) {
    tell_interrupted(lines);
    for source in ["", "ab", "abc", "abcd", "abcdefgh"] {
        tell_within(alloc, lines, source);
    }
}
