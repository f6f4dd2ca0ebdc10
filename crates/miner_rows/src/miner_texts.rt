// Texts of miners that are read and written again.
use miner_text::{TextErr, read, write};
use row_files::Lines;
use std::alloc::{AllocError, Global};

// Lines of each kind. Then texts that are refused: a last line with no newline, a line after the end, a text that stops before the end, a
// share of a type that there isn't, a number with a zero before it, two spaces, and no text. Then truth values in one word and in two, and
// numbers of truth values that their words don't hold, the greatest and a greater one.
const TEXTS: [&str; 16] = [
    "open 1 18446744073709551615\npublish _s 42\nopen true false\nshare r uint64 5 7\nshare b bool 1 3\nshare none bool 0\nend done cost 7\n",
    "open 1\nend done cost 7",
    "end budget cost 6\nopen 1\n",
    "open 1\npublish s 2\n",
    "open 1\nshare s int 5\nend done cost 0\n",
    "open 01\nend done cost 0\n",
    "open 1\nopen 2\nshare s  bool 1\nend done cost 0\n",
    "",
    "share b bool 63 18446744073709551615\nshare b bool 64 0\nshare b bool 65 1 18446744073709551615\nend done cost 7\n",
    "share b bool 3\nend done cost 7\n",
    "share b bool 65 1\nend done cost 7\n",
    "share b bool 64 1 2\nend done cost 7\n",
    "share b bool 0 0\nend done cost 7\n",
    "share b bool\nend done cost 7\n",
    "share b bool 18446744073709551615\nend done cost 7\n",
    "share b bool 18446744073709551616 1\nend done cost 7\n",
];

fn tell_again(lines: &mut Lines, written: Result<Vec<u8>, AllocError>, read: &[u8]) {
    match written {
        Ok(written) => {
            let is_same = written.as_slice() == read;
            write!(lines, "written again as it was {is_same}");
        }
        Err(AllocError) => lines.run_short(),
    }
}

fn tell_text(alloc: Global, lines: &mut Lines, source: &str) {
    write!(lines, "miner's text {source:?}: ");
    match read(alloc, source.as_bytes()) {
        Ok(text) => tell_again(lines, write(alloc, &text), source.as_bytes()),
        Err(TextErr::BadText { line }) => write!(lines, "bad in line {line}"),
        Err(TextErr::Memory) => lines.run_short(),
    }
    lines.add("\n");
}

/// The lines of miners' texts.
pub fn tell(alloc: Global, lines: &mut Lines) {
    for source in TEXTS {
        tell_text(alloc, lines, source);
    }
}
