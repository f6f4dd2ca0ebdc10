//! The text of a view, piece by piece.
ghost use Rattle.std.specs.Prelude.{◌≡◌, ◌<◌, ◌++◌, [], Some, None, true, false, length, IfOk, OnOk, string_bytes, option_map};
ghost use Rattle.view_text.specs.Pieces.{bytes_left, first_line_of, line_left};
ghost use Rattle.view_text.specs.Text.{view_bytes, words_behind};

use crate::view::{InputShare, Received, View};
use sc_text::{Elements, End};
use std::alloc::{AllocError, Global};

/// The most words that a piece has.
const MOST_WORDS: usize = 1024;

/// What is still to be given out of a view's text.
#[derive(Drop)]
pub struct Pieces<'a> {
    line: Option<&'a [u64]>,
    inputs: &'a [InputShare],
    drew: Option<&'a [u64]>,
    got: &'a [Received],
    opened: &'a [Elements],
    end: Option<End>,
}

// Appends a space and the number, for each.
fn push_words(text: &mut String, words: &[u64]) -> Result<(), AllocError>
    ensures { OnOk result (string_bytes text.new ≡ string_bytes text.old ++ words_behind words.now) }
{
    for word in words {
        write!(text, " {word}")?;
    }
    Ok(())
}

// Appends the next words of a line that is begun, and its newline after the last; says which words the line has left then.
fn push_line<'a>(text: &mut String, words: &'a [u64]) -> Result<Option<&'a [u64]>, AllocError>
    ensures given { IfOk result (λ left. string_bytes text.new ++ line_left (option_map (λ w. w.now) left) ≡ string_bytes text.old ++ line_left (Some words.now)) }
    ensures longer { OnOk result (length (string_bytes text.old) < length (string_bytes text.new)) }
{
    let (front, rest) = words.split_at(words.len().min(MOST_WORDS));
    push_words(text, front)?;
    if rest.is_empty() {
        writeln!(text, "")?;
        return Ok(None);
    }
    Ok(Some(rest))
}

impl Pieces<'_> {
    /// Appends the next piece to the text: a line, or its beginning where it has more than 1,024 words, or more words of it. Says whether
    /// there was one.
    pub fn push_next(&mut self, text: &mut String) -> Result<bool, AllocError>
        ensures given { OnOk result (string_bytes text.new ++ bytes_left self.new ≡ string_bytes text.old ++ bytes_left self.old) }
        ensures falls { IfOk result (λ more. more ≡ true → length (bytes_left self.new) < length (bytes_left self.old)) }
        ensures through { IfOk result (λ more. more ≡ false → bytes_left self.new ≡ []) }
    {
        if let Some(words) = self.line {
            self.line = push_line(text, words)?;
            return Ok(true);
        }
        self.begin_line(text)
    }

    // The same where no line is begun: it begins the next.
    fn begin_line(&mut self, text: &mut String) -> Result<bool, AllocError>
        requires { self.old.line ≡ None }
        ensures given { OnOk result (string_bytes text.new ++ bytes_left self.new ≡ string_bytes text.old ++ bytes_left self.old) }
        ensures falls { IfOk result (λ more. more ≡ true → length (bytes_left self.new) < length (bytes_left self.old)) }
        ensures through { IfOk result (λ more. more ≡ false → bytes_left self.new ≡ []) }
    {
        if let Some((input, rest)) = self.inputs.split_first() {
            let name = input.name.as_str();
            write!(text, "in {name}")?;
            self.inputs = rest;
            self.line = Some(input.words.as_slice());
            return Ok(true);
        }
        if let Some(words) = self.drew {
            write!(text, "drew")?;
            self.drew = None;
            self.line = Some(words);
            return Ok(true);
        }
        if let Some((received, rest)) = self.got.split_first() {
            let link = received.link;
            write!(text, "got {link}")?;
            self.got = rest;
            self.line = Some(received.message.as_slice());
            return Ok(true);
        }
        if let Some((elements, rest)) = self.opened.split_first() {
            writeln!(text, "open{elements}")?;
            self.opened = rest;
            return Ok(true);
        }
        if let Some(end) = self.end {
            write!(text, "{end}")?;
            self.end = None;
            return Ok(true);
        }
        Ok(false)
    }
}

impl View {
    /// The first line of its text.
    pub fn first_line(&self, alloc: Global) -> Result<String, AllocError>
        ensures { IfOk result (λ line. string_bytes line ≡ first_line_of self.now) }
    {
        let miner = self.miner;
        format!(in alloc; "view {miner}\n")
    }

    /// What comes after the first line of its text.
    pub fn other_lines(&self) -> Pieces<'_>
        ensures { first_line_of self.now ++ bytes_left result ≡ view_bytes self.now }
    {
        Pieces {
            line: None,
            inputs: &self.inputs,
            drew: Some(self.drew.as_slice()),
            got: &self.got,
            opened: &self.opened,
            end: Some(self.end),
        }
    }
}
