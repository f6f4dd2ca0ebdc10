// One call of the program, and what must come of it.
ghost use Rattle.std.specs.Prelude.{◌≡◌, ◌≤◌, option_map, IfOk};
ghost use Rattle.row_files.specs.Failures.{calls_failing};
ghost use Rattle.row_files.specs.Texts.{bytes_said, last_text, peer_named};

use crate::wrong::Fault;
use std::alloc::{AllocError, Global};
use std::mem;

/// What the bytes of a text are.
#[derive(Clone, Copy, PartialEq, Eq)]
pub enum Kind {
    /// A file that the call finds, by its path.
    Held,
    /// A file as it must be afterwards, by its path.
    Written,
    /// A file that must not be there afterwards, by its path.
    Absent,
    /// What must be printed.
    Out,
    /// What must stand on the error stream.
    Err,
    /// What comes from a peer, by its number.
    Arriving,
    /// What a peer must have been sent, by its number.
    Sent,
    /// The calls of the children that must have been made, one a line.
    Calls,
    /// What stands before the program of a line.
    Before,
    /// What stands in the place of the first `~` of a line.
    Between,
    /// What stands after the program of a line.
    After,
}

/// Bytes that have a name.
pub struct Text {
    pub kind: Kind,
    pub name: String,
    pub bytes: Vec<u8>,
}

// Written out, so that an early exit calls this once.
impl Drop for Text {
    fn drop(self) {
        let Text {
            kind: _,
            name: _,
            bytes: _,
        } = self;
    }
}

/// An object whose calls can fail.
#[derive(Clone, Copy, PartialEq, Eq)]
pub enum Object {
    Files,
    Out,
    Err,
    Links,
    Children,
}

/// A call of an object that is to fail, by its number from 0.
#[derive(Clone, Copy)]
pub struct Failing {
    pub object: Object,
    pub call: u64,
}

/// A call of the program: its words and what it finds; and what it must answer and leave.
pub struct Row {
    /// The line of the row file where the row begins.
    pub line: usize,
    pub title: String,
    pub words: Vec<String>,
    pub failing: Vec<Failing>,
    /// The output and the error stream take one byte at a time, and else seven.
    pub slow: bool,
    /// The statuses that the children will have.
    pub children: Vec<i32>,
    pub status: u8,
    /// Of two texts of one kind and one name the later counts.
    pub texts: Vec<Text>,
    // Why a line of the row cannot be read. The first counts.
    pub(crate) wrong: Option<Fault>,
}

// Written out, so that an early exit calls this once.
impl Drop for Row {
    fn drop(self) {
        let Row {
            line: _,
            title: _,
            words: _,
            failing: _,
            slow: _,
            children: _,
            status: _,
            texts: _,
            wrong: _,
        } = self;
    }
}

/// The number of a peer: 1, 2 or 3.
pub fn peer_of(name: &str) -> u8
    ensures from { 1 ≤ result }
    ensures to { result ≤ 3 }
    ensures named { result ≡ peer_named name.now }
{
    match name {
        "1" => 1,
        "2" => 2,
        _ => 3,
    }
}

impl Row {
    /// A call with no words over nothing, which must end well and print nothing.
    pub fn new(alloc: Global, line: usize) -> Self {
        Row {
            line,
            title: String::new(alloc),
            words: Vec::new(alloc),
            failing: Vec::new(alloc),
            slow: false,
            children: Vec::new(alloc),
            status: 0,
            texts: Vec::new(alloc),
            wrong: None,
        }
    }

    /// Keeps why a line of the row cannot be read.
    pub(crate) fn refuse(&mut self, wrong: Fault) {
        if self.wrong.is_none() {
            self.wrong = Some(wrong);
        }
    }

    /// Lets the call have all that this one has.
    pub(crate) fn join(&mut self, alloc: Global, group: &Row) {
        for word in group.words.iter() {
            self.add_word(alloc, word.as_str());
        }
        let failing = self.failing.extend_from_slice(&group.failing);
        let children = self.children.extend_from_slice(&group.children);
        if failing.is_err() || children.is_err() {
            self.refuse(Fault::Memory);
        }
        self.slow = group.slow;
        self.status = group.status;
        self.join_texts(alloc, group);
    }

    fn join_texts(&mut self, alloc: Global, group: &Row) {
        for text in group.texts.iter() {
            self.add(alloc, text.kind, text.name.as_str());
            self.put(&text.bytes);
        }
    }

    /// Lets the call have one more word.
    pub(crate) fn add_word(&mut self, alloc: Global, word: &str) {
        let added = match String::from_str(alloc, word) {
            Ok(word) => self.words.push(word).is_ok(),
            Err(_) => false,
        };
        if !added {
            self.refuse(Fault::Memory);
        }
    }

    /// Lets the call have these words, which stand between blanks; `""` is the empty word.
    pub(crate) fn call(&mut self, alloc: Global, words: &str) {
        self.words.clear();
        for word in words.split_whitespace() {
            let word = if word == "\"\"" { "" } else { word };
            self.add_word(alloc, word);
        }
    }

    /// Adds a text with no bytes.
    pub(crate) fn add(&mut self, alloc: Global, kind: Kind, name: &str) {
        let bytes = Vec::new(alloc);
        let added = match String::from_str(alloc, name) {
            Ok(name) => self.texts.push(Text { kind, name, bytes }).is_ok(),
            Err(_) => false,
        };
        if !added {
            self.refuse(Fault::Memory);
        }
    }

    /// Adds bytes to the last text.
    pub(crate) fn put(&mut self, bytes: &[u8]) {
        if let Some(text) = self.texts.last_mut() {
            if text.bytes.extend_from_slice(bytes).is_err() {
                self.refuse(Fault::Memory);
            }
        }
    }

    /// Takes the bytes of the last text.
    pub(crate) fn take(&mut self, alloc: Global) -> Vec<u8> {
        match self.texts.last_mut() {
            Some(text) => mem::replace(&mut text.bytes, Vec::new(alloc)),
            None => Vec::new(alloc),
        }
    }

    /// How many bytes the last text has.
    pub(crate) fn size(&self) -> usize {
        match self.texts.last() {
            Some(text) => text.bytes.len(),
            None => 0,
        }
    }

    /// The last text of this kind and name.
    pub fn find(&self, kind: Kind, name: &str) -> Option<&Text>
        ensures { option_map (λ text. text.now) result ≡ last_text self.now.texts.items kind name.now }
    {
        self.texts
            .iter()
            .rev()
            .find(|text| text.kind == kind && text.name.as_str() == name)
    }

    /// The bytes of the last text of this kind and name; none where there is no such text.
    pub fn bytes(&self, kind: Kind, name: &str) -> &[u8]
        ensures { result.now ≡ bytes_said self.now.texts.items kind name.now }
    {
        match self.find(kind, name) {
            Some(text) => &text.bytes,
            None => &[],
        }
    }

    /// The calls of an object that are to fail.
    pub fn fails(&self, alloc: Global, object: Object) -> Result<Vec<u64>, AllocError>
        ensures { IfOk result (λ calls. calls.items ≡ calls_failing object self.now.failing.items) }
    {
        let mut calls = Vec::new(alloc);
        for failing in self.failing.iter() {
            if failing.object == object {
                calls.push(failing.call)?;
            }
        }
        Ok(calls)
    }
}
