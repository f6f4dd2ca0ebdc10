// A view's text, as far as it was read.
ghost use Rattle.std.specs.Prelude.{◌≡◌, ◌++◌, [], ◌∷◌, map, IfOk, OnOk, OnErr, option_and_then, option_map};
ghost use Rattle.view_text.specs.Text.{Drew, Opened, Ended};
ghost use Rattle.view_text.specs.Reading.{AtHeading, next_stage, heading_in, input_in, got_in, line_in, words_in_line};
ghost use Rattle.view_text.specs.Reading.{word_in, element_in, all_in, end_in};
ghost use Rattle.view_reader.specs.Places.{taken, whole_of};

use crate::elements::elements_in;
use crate::ends::end_in;
use crate::lines::words_in_line;
use crate::parts::{got_in, heading_in, input_in};
use crate::place::Place;
use crate::words::{is_word, words_in};
use sc_text::Elements;
use std::alloc::{AllocError, Global};
use std::marker::Model;
use view_text::{InputShare, Received, View};

/// What was read of a view's text so far. Clauses see it as the stage of `view_text`.
pub struct Reading {
    place: Place,
    inputs: Vec<InputShare>,
    drew: Vec<u64>,
    got: Vec<Received>,
    opened: Vec<Elements>,
}

// Written out, so that an early exit calls this once.
impl Drop for Reading {
    fn drop(self) {
        let Reading {
            place: _,
            inputs: _,
            drew: _,
            got: _,
            opened: _,
        } = self;
    }
}

impl Model for Reading {
    ghost use Rattle.std.specs.Prelude.{IsTrue, length};
    ghost use Rattle.view_text.specs.Reading.{Stage};
    ghost use Rattle.view_reader.specs.Places.{stage_at, nothing_ahead};

    ghost Value = { Stage };

    ghost view = { λ r. stage_at r.place r.inputs.items r.drew.items r.got.items r.opened.items };

    ghost invariant = { λ r. IsTrue (nothing_ahead r.place (length r.inputs.items) (length r.got.items) (length r.opened.items)) };
}

fn add_input(inputs: &mut Vec<InputShare>, input: InputShare) -> Result<(), AllocError>
    ensures ok { OnOk result (inputs.new.items ≡ inputs.old.items ++ input ∷ []) }
{
    inputs.push(input)?;
    Ok(())
}

fn add_received(got: &mut Vec<Received>, received: Received) -> Result<(), AllocError>
    ensures ok { OnOk result (got.new.items ≡ got.old.items ++ received ∷ []) }
{
    got.push(received)?;
    Ok(())
}

fn add_opened(opened: &mut Vec<Elements>, elements: Elements) -> Result<(), AllocError>
    ensures ok { OnOk result (opened.new.items ≡ opened.old.items ++ elements ∷ []) }
    ensures err { OnErr result (opened.new.items ≡ opened.old.items) }
{
    opened.push(elements)?;
    Ok(())
}

impl Reading {
    /// Nothing was read yet.
    pub fn new(alloc: Global) -> Self
        ensures { result ≡ AtHeading }
    {
        Reading {
            place: Place::Heading,
            inputs: Vec::new(alloc),
            drew: Vec::new(alloc),
            got: Vec::new(alloc),
            opened: Vec::new(alloc),
        }
    }

    fn take_heading(&mut self, words: &[&[u8]]) -> bool
        ensures { taken result self.new ≡ option_and_then (next_stage self.old) (heading_in (map (λ word. word.now) words.now)) }
    {
        let Some(miner) = heading_in(words) else {
            return false;
        };
        if !self.place.is_heading() {
            return false;
        }
        self.place = Place::Inputs(miner);
        true
    }

    fn take_input(&mut self, alloc: Global, words: &[&[u8]]) -> Result<bool, AllocError>
        ensures { IfOk result (λ is_next.
            taken is_next self.new ≡ option_and_then (next_stage self.old) (input_in (map (λ word. word.now) words.now))) }
    {
        let Some(input) = input_in(alloc, words)? else {
            return Ok(false);
        };
        if self.place.at_inputs().is_none() {
            return Ok(false);
        }
        add_input(&mut self.inputs, input)?;
        Ok(true)
    }

    fn take_drew(&mut self, alloc: Global, words: &[&[u8]]) -> Result<bool, AllocError>
        ensures { IfOk result (λ is_next. taken is_next self.new
            ≡ option_and_then (next_stage self.old) (option_map Drew (all_in word_in (map (λ word. word.now) words.now)))) }
    {
        let Some(drew) = words_in(alloc, words)? else {
            return Ok(false);
        };
        let Some(miner) = self.place.at_inputs() else {
            return Ok(false);
        };
        self.drew = drew;
        self.place = Place::Messages(miner);
        Ok(true)
    }

    fn take_got(&mut self, alloc: Global, words: &[&[u8]]) -> Result<bool, AllocError>
        ensures { IfOk result (λ is_next.
            taken is_next self.new ≡ option_and_then (next_stage self.old) (got_in (map (λ word. word.now) words.now))) }
    {
        let Some(received) = got_in(alloc, words)? else {
            return Ok(false);
        };
        if !self.place.is_messages() {
            return Ok(false);
        }
        add_received(&mut self.got, received)?;
        Ok(true)
    }

    fn take_opened(&mut self, alloc: Global, words: &[&[u8]]) -> Result<bool, AllocError>
        ensures { IfOk result (λ is_next. taken is_next self.new
            ≡ option_and_then (next_stage self.old) (option_map Opened (all_in element_in (map (λ word. word.now) words.now)))) }
    {
        let Some(elements) = elements_in(alloc, words)? else {
            return Ok(false);
        };
        let Some(miner) = self.place.before_end() else {
            return Ok(false);
        };
        add_opened(&mut self.opened, Elements::from_vec(elements))?;
        self.place = Place::Openings(miner);
        Ok(true)
    }

    fn take_end(&mut self, alloc: Global, words: &[&[u8]]) -> Result<bool, AllocError>
        ensures { IfOk result (λ is_next. taken is_next self.new
            ≡ option_and_then (next_stage self.old) (option_map Ended (end_in (map (λ word. word.now) words.now)))) }
    {
        let Some(end) = end_in(alloc, words)? else {
            return Ok(false);
        };
        let Some(miner) = self.place.before_end() else {
            return Ok(false);
        };
        self.place = Place::Whole(miner, end);
        Ok(true)
    }

    fn take(&mut self, alloc: Global, words: &[&[u8]]) -> Result<bool, AllocError>
        ensures { IfOk result (λ is_next.
            taken is_next self.new ≡ option_and_then (next_stage self.old) (line_in (map (λ word. word.now) words.now))) }
    {
        let Some((word, rest)) = words.split_first() else {
            return Ok(false);
        };
        if is_word(word, "view") {
            Ok(self.take_heading(rest))
        } else if is_word(word, "in") {
            self.take_input(alloc, rest)
        } else if is_word(word, "drew") {
            self.take_drew(alloc, rest)
        } else if is_word(word, "got") {
            self.take_got(alloc, rest)
        } else if is_word(word, "open") {
            self.take_opened(alloc, rest)
        } else if is_word(word, "end") {
            self.take_end(alloc, rest)
        } else {
            Ok(false)
        }
    }

    /// Takes one more line, and answers whether it could come there.
    pub fn take_line(&mut self, alloc: Global, line: &[u8]) -> Result<bool, AllocError>
        ensures { IfOk result (λ is_next.
            taken is_next self.new ≡ option_and_then (next_stage self.old) (line_in (words_in_line line.now))) }
    {
        let words = words_in_line(alloc, line)?;
        self.take(alloc, &words)
    }

    /// The view, where all of it was read.
    pub fn into_view(self) -> Option<View>
        ensures { result ≡ whole_of self }
    {
        let Reading {
            place,
            inputs,
            drew,
            got,
            opened,
        } = self;
        match place {
            Place::Whole(miner, end) => Some(View::new(miner, inputs, drew, got, opened, end)),
            _ => None,
        }
    }
}
