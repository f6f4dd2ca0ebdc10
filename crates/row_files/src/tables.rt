// Lines that are rows of their own: programs that are checked or evaluated.
use crate::row::{Kind, Row};
use crate::wrong::Fault;
use std::alloc::Global;

// What a byte after a backslash stands for.
fn escaped(byte: u8) -> Option<u8> {
    match byte {
        b'n' => Some(b'\n'),
        b'r' => Some(b'\r'),
        b't' => Some(b'\t'),
        b'\\' => Some(b'\\'),
        _ => None,
    }
}

fn add_escaped(row: &mut Row, byte: u8) {
    match escaped(byte) {
        Some(byte) => row.put(&[byte]),
        None => row.refuse(Fault::Escape),
    }
}

// Adds a text in which `\n` is a line feed, `\r` a carriage return, `\t` a tab and `\\` a backslash.
fn add_text(row: &mut Row, text: &str) {
    let mut behind = false;
    for byte in text.bytes() {
        if behind {
            add_escaped(row, byte);
            behind = false;
        } else if byte == b'\\' {
            behind = true;
        } else {
            row.put(&[byte]);
        }
    }
    if behind {
        row.refuse(Fault::Escape);
    }
}

// The program of a line: what stands before and after it, and in the place of its first `~`, is the group's.
fn add_program(row: &mut Row, group: &Row, text: &str) {
    row.put(group.bytes(Kind::Before, ""));
    match (group.find(Kind::Between, ""), text.split_once('~')) {
        (None, _) => add_text(row, text),
        (Some(_), None) => row.refuse(Fault::Between),
        (Some(between), Some((first, second))) => {
            add_text(row, first);
            row.put(&between.bytes);
            add_text(row, second);
        }
    }
    row.put(group.bytes(Kind::After, ""));
}

/// The place after these bytes: the line and the column, from 1.
pub fn place_behind(bytes: &[u8]) -> (usize, usize) {
    let mut line = 1usize;
    let mut column = 1usize;
    for byte in bytes {
        if *byte == b'\n' {
            line = line.saturating_add(1);
            column = 1;
        } else {
            column = column.saturating_add(1);
        }
    }
    (line, column)
}

// The place of the first `@`, which is taken out.
fn take_mark(bytes: &mut Vec<u8>) -> Option<(usize, usize)> {
    for index in 0..bytes.len() {
        if bytes[index] == b'@' {
            let place = place_behind(&bytes[..index]);
            bytes.remove(index);
            return Some(place);
        }
    }
    None
}

/// Whether this is a fault of a program: a capital letter and then digits.
pub fn is_fault(word: &str) -> bool {
    match word.as_bytes() {
        [b'A'..=b'Z', rest @ ..] => !rest.is_empty() && rest.iter().all(|b| b.is_ascii_digit()),
        _ => false,
    }
}

// The row of a program: it has what the group has, and calls the command that the group calls, or else this one.
fn set_row(alloc: Global, row: &mut Row, group: &Row, words: &str) {
    row.join(alloc, group);
    if row.words.is_empty() {
        row.call(alloc, words);
    }
}

// Lets the row find the program of a line.
fn set_program(alloc: Global, row: &mut Row, group: &Row, text: &str) {
    row.add(alloc, Kind::Held, "p.sc");
    add_program(row, group, text);
}

// The place of the mark in the program, which is the last text.
fn place_in(row: &mut Row) -> Option<(usize, usize)> {
    match row.texts.last_mut() {
        Some(program) => take_mark(&mut program.bytes),
        None => None,
    }
}

// Lets the row want that its program is refused for this fault at this place.
fn set_fault(alloc: Global, row: &mut Row, fault: &str, place: (usize, usize)) {
    let (line, column) = place;
    row.status = 3;
    row.add(alloc, Kind::Err, "");
    match format!(in alloc; "error: {fault} line {line} column {column}\n") {
        Ok(said) => row.put(said.as_bytes()),
        Err(_) => row.refuse(Fault::Memory),
    }
}

/// The row of a program that is checked: `ok TEXT`, or `FAULT TEXT` with `@` at the place of the fault.
pub fn set_check(alloc: Global, row: &mut Row, group: &Row, word: &str, text: &str) {
    set_row(alloc, row, group, "check p.sc");
    set_program(alloc, row, group, text);
    if word == "ok" {
        row.add(alloc, Kind::Out, "");
        row.put(b"ok\n");
        return;
    }
    match place_in(row) {
        Some(place) => set_fault(alloc, row, word, place),
        None => row.refuse(Fault::Mark),
    }
}

/// The row of a program that is evaluated, with no inputs where none are given; the lines below say what it prints.
pub fn set_eval(alloc: Global, row: &mut Row, group: &Row, text: &str) {
    set_row(alloc, row, group, "eval p.sc --input p.json");
    if row.find(Kind::Held, "p.json").is_none() {
        row.add(alloc, Kind::Held, "p.json");
        row.put(b"{\"inputs\":[]}");
    }
    set_program(alloc, row, group, text);
    row.add(alloc, Kind::Out, "");
}

// The status that goes with the last line of a run, or with a line of the error stream.
fn status_of(line: &str) -> u8 {
    if line.starts_with("error: I") {
        4
    } else if line.starts_with("error: ") {
        3
    } else if line.starts_with("end trap ") {
        1
    } else if line.starts_with("end budget ") {
        7
    } else if line.starts_with("end tape ") {
        8
    } else {
        0
    }
}

// Lets the first word of a call be `need`.
fn call_need(alloc: Global, need: &mut Row) {
    if let Some(word) = need.words.first_mut() {
        match String::from_str(alloc, "need") {
            Ok(text) => *word = text,
            Err(_) => need.refuse(Fault::Memory),
        }
    }
}

/// Makes a row of `eval` one of `need`, which prints this line, or else nothing.
pub fn set_need(alloc: Global, need: &mut Row, row: &Row, line: &str) {
    need.join(alloc, row);
    call_need(alloc, need);
    need.add(alloc, Kind::Out, "");
    if line != "need" {
        need.put(line.as_bytes());
        need.put(b"\n");
    }
}

/// A line that the last row must print, or that must stand on the error stream.
pub fn add_printed(alloc: Global, row: &mut Row, line: &str) {
    row.status = status_of(line);
    if line.starts_with("error: ") {
        row.add(alloc, Kind::Err, "");
    }
    row.put(line.as_bytes());
    row.put(b"\n");
}
