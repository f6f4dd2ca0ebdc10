// Row files.
use crate::pieces::{add_inputs, add_piece, number};
use crate::row::{Failing, Kind, Object, Row};
use crate::tables::{add_printed, is_fault, place_behind, set_check, set_eval, set_need};
use crate::wrong::{Fault, Wrong};
use std::alloc::Global;

/// Why a row file cannot be read, and in which line.
#[derive(Clone, Copy)]
pub struct Refused {
    pub line: usize,
    pub wrong: Wrong,
}

// Whose are the fields that the next lines set.
#[derive(Clone, Copy)]
enum Place {
    Nowhere,
    Group,
    Row,
}

// What was read of a row file.
#[derive(Drop)]
struct Reader {
    rows: Vec<Row>,
    group: Row,
    place: Place,
    // The last text of the row or the group takes the bytes of the next lines.
    takes: bool,
    // Why a line cannot be read, where no row says it.
    wrong: Option<Fault>,
}

fn object_of(word: &str) -> Option<Object> {
    match word {
        "files" => Some(Object::Files),
        "out" => Some(Object::Out),
        "err" => Some(Object::Err),
        "links" => Some(Object::Links),
        "children" => Some(Object::Children),
        _ => None,
    }
}

fn add_failing(row: &mut Row, object: Object, calls: &str) {
    for word in calls.split_whitespace() {
        let call = number(row, word);
        if row.failing.push(Failing { object, call }).is_err() {
            row.refuse(Fault::Memory);
        }
    }
}

fn set_fails(row: &mut Row, text: &str) {
    let (word, calls) = text.split_once(' ').unwrap_or((text, ""));
    match object_of(word) {
        Some(object) => add_failing(row, object, calls),
        None => row.refuse(Fault::Object),
    }
}

fn add_child(row: &mut Row, status: i32) {
    if row.children.push(status).is_err() {
        row.refuse(Fault::Memory);
    }
}

fn set_children(row: &mut Row, text: &str) {
    for word in text.split_whitespace() {
        match word.parse::<i32>() {
            Ok(status) => add_child(row, status),
            Err(_) => row.refuse(Fault::Child),
        }
    }
}

fn set_status(row: &mut Row, text: &str) {
    match text.parse::<u8>() {
        Ok(status) => row.status = status,
        Err(_) => row.refuse(Fault::Status),
    }
}

// The kind of the text that a line with this word begins.
fn kind_of(word: &str) -> Option<Kind> {
    match word {
        "file" => Some(Kind::Held),
        "written" => Some(Kind::Written),
        "out" => Some(Kind::Out),
        "err" => Some(Kind::Err),
        "arrive" => Some(Kind::Arriving),
        "sent" => Some(Kind::Sent),
        "calls" => Some(Kind::Calls),
        "before" => Some(Kind::Before),
        "between" => Some(Kind::Between),
        "after" => Some(Kind::After),
        _ => None,
    }
}

// Begins a text. One line of what is printed can stand after the word.
fn add_text(alloc: Global, row: &mut Row, kind: Kind, text: &str) {
    match kind {
        Kind::Arriving | Kind::Sent => match text {
            "1" | "2" | "3" => row.add(alloc, kind, text),
            _ => row.refuse(Fault::Peer),
        },
        Kind::Held | Kind::Written => row.add(alloc, kind, text),
        _ => {
            row.add(alloc, kind, "");
            if !text.is_empty() {
                row.put(text.as_bytes());
                row.put(b"\n");
            }
        }
    }
}

// The input file of the programs below.
fn set_given(alloc: Global, row: &mut Row, entries: &str) {
    row.add(alloc, Kind::Held, "p.json");
    add_inputs(row, entries);
}

// A line of a row or a group; the answer says whether the next lines give bytes.
fn set_field(alloc: Global, row: &mut Row, word: &str, rest: &str) -> bool {
    if let Some(kind) = kind_of(word) {
        add_text(alloc, row, kind, rest);
        return true;
    }
    match word {
        "call" => row.call(alloc, rest),
        "word" => row.add_word(alloc, rest),
        "fail" => set_fails(row, rest),
        "slow" => row.slow = true,
        "status" => set_status(row, rest),
        "children" => set_children(row, rest),
        "absent" => row.add(alloc, Kind::Absent, rest),
        "given" => set_given(alloc, row, rest),
        _ => row.refuse(Fault::Line),
    }
    false
}

// A row with nothing but a title.
fn titled(alloc: Global, line: usize, title: &str) -> Row {
    let mut row = Row::new(alloc, line);
    if row.title.push_str(title).is_err() {
        row.refuse(Fault::Memory);
    }
    row
}

impl Reader {
    // The row whose fields the lines set.
    fn current(&mut self) -> Option<&mut Row> {
        match self.place {
            Place::Nowhere => None,
            Place::Group => Some(&mut self.group),
            Place::Row => self.rows.last_mut(),
        }
    }

    fn push(&mut self, row: Row) {
        if self.rows.push(row).is_err() {
            self.wrong = Some(Fault::Memory);
        }
    }

    // Gives the bytes of a line to the text that takes them. The answer says whether it did.
    fn take_bytes(&mut self, alloc: Global, line: &str) -> bool {
        if !self.takes {
            return false;
        }
        match self.current() {
            Some(row) => !row.texts.is_empty() && add_piece(alloc, row, line),
            None => false,
        }
    }

    // A line that the program of the last row prints, or the row of `need`.
    fn printed(&mut self, alloc: Global, line: usize, text: &str) {
        let Some(row) = self.rows.last_mut() else {
            self.wrong = Some(Fault::Printed);
            return;
        };
        if text != "need" && !text.starts_with("need ") {
            return add_printed(alloc, row, text);
        }
        let mut need = Row::new(alloc, line);
        set_need(alloc, &mut need, row, text);
        self.push(need);
    }

    fn begin_group(&mut self, alloc: Global, line: usize) {
        self.group = Row::new(alloc, line);
        self.place = Place::Group;
    }

    fn begin_row(&mut self, alloc: Global, line: usize, title: &str) {
        self.place = Place::Row;
        let mut row = titled(alloc, line, title);
        row.join(alloc, &self.group);
        self.push(row);
    }

    // The row of a program that is evaluated.
    fn eval(&mut self, alloc: Global, line: usize, text: &str) {
        self.place = Place::Group;
        let mut row = titled(alloc, line, text);
        set_eval(alloc, &mut row, &self.group, text);
        self.push(row);
    }

    // The row of a program that is checked.
    fn check(&mut self, alloc: Global, line: usize, text: &str) {
        self.place = Place::Group;
        let (word, rest) = text.split_once(' ').unwrap_or((text, ""));
        let mut row = titled(alloc, line, text);
        set_check(alloc, &mut row, &self.group, word, rest);
        self.push(row);
    }

    fn field(&mut self, alloc: Global, word: &str, rest: &str) {
        match self.current() {
            Some(row) => self.takes = set_field(alloc, row, word, rest),
            None => self.wrong = Some(Fault::Beginning),
        }
    }

    // A line that begins a row or a group, or is a row of its own; or else a field.
    fn word_line(&mut self, alloc: Global, line: usize, text: &str) {
        let (word, rest) = text.split_once(' ').unwrap_or((text, ""));
        match word {
            "group" => self.begin_group(alloc, line),
            "row" => self.begin_row(alloc, line, rest),
            "ok" => self.check(alloc, line, text),
            "do" => self.eval(alloc, line, rest),
            "=" => self.printed(alloc, line, rest),
            _ if is_fault(word) => self.check(alloc, line, text),
            _ => self.field(alloc, word, rest),
        }
    }

    // Any line.
    fn line(&mut self, alloc: Global, line: usize, text: &str) {
        if text.is_empty() || text.starts_with('#') || self.take_bytes(alloc, text) {
            return;
        }
        self.takes = false;
        self.word_line(alloc, line, text);
    }

    // Why the lines so far cannot be read, if they cannot.
    fn wrong(&self) -> Option<Fault> {
        let in_row = match self.rows.last() {
            Some(row) => row.wrong,
            None => None,
        };
        self.wrong.or(self.group.wrong).or(in_row)
    }

    fn lines(&mut self, alloc: Global, text: &str) -> Result<(), Refused> {
        let mut number = 0usize;
        for line in text.lines() {
            number = number.saturating_add(1);
            self.line(alloc, number, line);
            if let Some(fault) = self.wrong() {
                return Err(Refused {
                    line: number,
                    wrong: fault.wrong(),
                });
            }
        }
        Ok(())
    }
}

/// The rows of a row file, or the first line that cannot be read.
pub fn read_rows(alloc: Global, bytes: &[u8]) -> Result<Vec<Row>, Refused> {
    let text = match str::from_utf8(bytes) {
        Ok(text) => text,
        Err(error) => {
            let (line, _) = place_behind(&bytes[..bytes.len().min(error.valid_up_to())]);
            let wrong = Wrong::Said("a row file is text in UTF-8");
            return Err(Refused { line, wrong });
        }
    };
    let mut reader = Reader {
        rows: Vec::new(alloc),
        group: Row::new(alloc, 0),
        place: Place::Nowhere,
        takes: false,
        wrong: None,
    };
    match reader.lines(alloc, text) {
        Ok(()) => Ok(reader.rows),
        Err(refused) => Err(refused),
    }
}
