// Texts of views that are read and written again.
use crate::again::tell_again;
use row_files::Lines;
use std::alloc::Global;
use view_reader::{ReadErr, read};
use view_text::write;

// The first miner's view of 6 multiplied by 7 on tapes of zeros. Then texts that are refused: a number with a zero before it, the words
// drawn left out, a text that stops before the end, one whose last line has no newline, and one that goes on.
const VIEWS: [&str; 6] = [
    "view 1\nin a 0\nin b 0\ndrew 0 0 0 0\ngot 31 0 0 0\ngot 31 6 7\ngot 21 0\ngot 31 0\ngot 31 42\nopen 42\nend done cost 7\n",
    "view 1\nin a 00\n",
    "view 1\nin a 0\ngot 31 0\n",
    "view 1\ndrew\n",
    "view 1\ndrew\nend done cost 0",
    "view 1\ndrew\nend done cost 0\n\n",
];

fn tell_view(alloc: Global, lines: &mut Lines, source: &str) {
    write!(lines, "view {source:?}: ");
    match read(alloc, source.as_bytes()) {
        Ok(view) => tell_again(lines, write(alloc, &view), source.as_bytes()),
        Err(ReadErr::BadView { line }) => write!(lines, "bad in line {line}"),
        Err(ReadErr::Memory) => lines.run_short(),
    }
    lines.add("\n");
}

/// The lines of views.
pub fn tell(alloc: Global, lines: &mut Lines) {
    for source in VIEWS {
        tell_view(alloc, lines, source);
    }
}
