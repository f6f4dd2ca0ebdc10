// The lines that give bytes.
use crate::row::Row;
use crate::wrong::Fault;
use std::alloc::Global;

// A line gives no more bytes than this, nor a tape more words.
const MOST: u64 = 16_777_216;

fn digit(byte: u8) -> Option<u8> {
    match byte {
        b'0'..=b'9' => Some(byte - b'0'),
        b'a'..=b'f' => Some(byte - b'a' + 10),
        _ => None,
    }
}

// A byte of two digits.
fn byte(word: &str) -> Option<u8> {
    match word.as_bytes() {
        [high, low] => Some(digit(*high)?.wrapping_mul(16) | digit(*low)?),
        _ => None,
    }
}

fn add_hex(row: &mut Row, text: &str) {
    for word in text.split_whitespace() {
        match byte(word) {
            Some(byte) => row.put(&[byte]),
            None => row.refuse(Fault::Byte),
        }
    }
}

/// A number in decimal digits. Where there is none the row is refused.
pub fn number(row: &mut Row, text: &str) -> u64 {
    match text.parse::<u64>() {
        Ok(number) => number,
        Err(_) => {
            row.refuse(Fault::Number);
            0
        }
    }
}

// Each number in eight bytes, the lowest first.
fn add_numbers(row: &mut Row, text: &str) {
    for word in text.split_whitespace() {
        let number = number(row, word);
        row.put(&number.to_le_bytes());
    }
}

// How many words stand between blanks.
fn word_count(text: &str) -> u64 {
    let mut count = 0u64;
    for _ in text.split_whitespace() {
        count = count.saturating_add(1);
    }
    count
}

// A tape file: the lengths of the tapes, which stand between `/`, and then their words.
fn add_tapes(row: &mut Row, text: &str) {
    for tape in text.split('/') {
        row.put(&word_count(tape).to_le_bytes());
    }
    for tape in text.split('/') {
        add_numbers(row, tape);
    }
}

fn add_zero_words(row: &mut Row, count: u64) {
    if count > MOST {
        row.refuse(Fault::Tape);
        return;
    }
    for _ in 0..count {
        row.put(&[0; 8]);
    }
}

// A tape file of zeros: the lengths, and as many zeros as they are together.
fn add_zeros(row: &mut Row, text: &str) {
    add_numbers(row, text);
    for word in text.split_whitespace() {
        let count = number(row, word);
        add_zero_words(row, count);
    }
}

// Adds a text in which each `#` is this number.
fn add_numbered(alloc: Global, row: &mut Row, text: &[u8], number: u64) {
    let Ok(digits) = format!(in alloc; "{number}") else {
        return row.refuse(Fault::Memory);
    };
    for byte in text {
        if *byte == b'#' {
            row.put(digits.as_bytes());
        } else {
            row.put(&[*byte]);
        }
    }
}

// So many copies of a text with its end; in each the `#` of the text are the number of the copy, from 0.
fn add_copies(alloc: Global, row: &mut Row, text: &[u8], end: &[u8], count: u64) {
    if count > MOST {
        row.refuse(Fault::Copies);
        return;
    }
    let is_plain = !text.contains(&b'#');
    for copy in 0..count {
        if is_plain {
            row.put(text);
        } else {
            add_numbered(alloc, row, text, copy);
        }
        row.put(end);
        if row.size() > MOST as usize {
            row.refuse(Fault::Size);
        }
        if row.wrong.is_some() {
            return;
        }
    }
}

// `COUNT TEXT`: so many copies of the text, each with this end.
fn add_repeated(alloc: Global, row: &mut Row, text: &str, end: &[u8]) {
    let (count, text) = text.split_once(' ').unwrap_or((text, ""));
    let count = number(row, count);
    add_copies(alloc, row, text.as_bytes(), end, count);
}

// Puts so many copies of all bytes so far in their place.
fn copy_all(alloc: Global, row: &mut Row, count: &str) {
    let count = number(row, count);
    let text = row.take(alloc);
    add_copies(alloc, row, &text, b"", count);
}

fn put_text(row: &mut Row, text: &str) {
    row.put(text.as_bytes());
}

// Adds what stands before a part of an entry and the part, which ends with a blank. Gives back the parts after it.
fn add_part<'a>(row: &mut Row, before: &str, parts: &'a str) -> &'a str {
    put_text(row, before);
    match parts.split_once(' ') {
        Some((part, rest)) => {
            put_text(row, part);
            rest
        }
        None => {
            row.refuse(Fault::Input);
            ""
        }
    }
}

// An entry of an input file: `NAME DOMAIN TYPE VALUE`, the value as JSON.
fn add_input(row: &mut Row, entry: &str) {
    let parts = add_part(row, "{\"name\":\"", entry);
    let parts = add_part(row, "\",\"domain\":\"", parts);
    let value = add_part(row, "\",\"type\":\"", parts);
    put_text(row, "\",\"value\":");
    put_text(row, value);
    row.put(b"}");
}

fn add_entries(row: &mut Row, entries: &str) {
    let mut is_first = true;
    for entry in entries.split(';') {
        if !is_first {
            row.put(b",");
        }
        add_input(row, entry.trim());
        is_first = false;
    }
}

/// Adds an input file of these entries, which stand between `; `.
pub fn add_inputs(row: &mut Row, entries: &str) {
    row.put(b"{\"inputs\":[");
    if !entries.is_empty() {
        add_entries(row, entries);
    }
    row.put(b"]}");
}

// Adds the bytes that a word and the rest of its line give, and says whether they give any.
fn add_words(alloc: Global, row: &mut Row, word: &str, rest: &str) -> bool {
    match word {
        "hex" => add_hex(row, rest),
        "u64" => add_numbers(row, rest),
        "tape" => add_tapes(row, rest),
        "zeros" => add_zeros(row, rest),
        "repeat" => add_repeated(alloc, row, rest, b""),
        "lines" => add_repeated(alloc, row, rest, b"\n"),
        "copies" => copy_all(alloc, row, rest),
        "inputs" => add_inputs(row, rest),
        _ => return false,
    }
    true
}

/// Adds the bytes that a line gives to the last text, and says whether it gives any.
pub fn add_piece(alloc: Global, row: &mut Row, line: &str) -> bool {
    if let Some(text) = line.strip_prefix('|') {
        put_text(row, text);
        row.put(b"\n");
        return true;
    }
    if let Some(text) = line.strip_prefix('>') {
        put_text(row, text);
        return true;
    }
    let (word, rest) = line.split_once(' ').unwrap_or((line, ""));
    add_words(alloc, row, word, rest)
}
