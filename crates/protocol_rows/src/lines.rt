//! How a line is put together.
use proto_core::BadMessage;
use row_files::Lines;

/// Adds words to a line.
pub fn add_words(lines: &mut Lines, words: &[u64]) {
    write!(lines, " {words:?}");
}

/// Adds to a line why a message is refused.
pub fn add_cause(lines: &mut Lines, cause: BadMessage) {
    write!(lines, " {cause:?}");
}

/// A line of a name and words.
pub fn line(lines: &mut Lines, name: &str, words: &[u64]) {
    write!(lines, "{name} {words:?}\n");
}
