// Lists of words by number, all of them in one vector.
ghost use Rattle.std.specs.Prelude.{◌≡◌, ◌≢◌, ℕ, ◌<◌, ◌≤◌, ◌^◌, [], length, OnOk, OnErr, IfOk};
ghost use Rattle.gates.specs.Held.{if_kept};
ghost use Rattle.gates.specs.inner.Spans.{found, words_at, list_at, AreSpans, live_words, HasPut, HasMoved};

use crate::span::Span;
use std::alloc::{AllocError, Global};
use std::collections::{BTreeMap, BTreeSet};
use std::marker::Model;

/// Lists of words, each at a number, in one vector: each is a place and a length in it. Clauses see the list of each number, which has no words
/// where none stands.
///
/// A list that comes stands last. Where more than half of the vector is in no list, it is closed up into the vector that was left at the last
/// time, so the two change places and neither is given back.
#[derive(Drop, Debug)]
pub(crate) struct FlatLists {
    alloc: Global,
    words: Vec<u64>,
    spans: BTreeMap<u64, Span>,
    live: usize,
    spare: Vec<u64>,
}

impl Model for FlatLists {
    ghost use Rattle.std.specs.Prelude.{◌≡◌, ◌≤◌, length};
    ghost use Rattle.gates.specs.inner.Spans.{Lists, found, AreSpans, live_words};

    ghost Value = { Lists };

    ghost view = { λ s. (s.words.items, s.spans.entries) };

    ghost invariant = { λ s. AreSpans s.words.items (found s.spans.entries) × (s.live ≡ live_words s.spans.entries) × (s.live ≤ length s.words.items) };
}

impl FlatLists {
    /// No list.
    pub fn new(alloc: Global) -> Self
        ensures { (k : ℕ) → list_at result k ≡ [] }
    {
        FlatLists {
            alloc,
            words: Vec::new(alloc),
            spans: BTreeMap::new(alloc),
            live: 0,
            spare: Vec::new(alloc),
        }
    }

    /// No list, in a vector whose words are not needed, with room for this number of them.
    fn with_room(alloc: Global, spare: Vec<u64>, room: usize) -> Result<Self, AllocError>
        ensures { IfOk result (λ lists. (k : ℕ) → list_at lists k ≡ []) }
    {
        let mut words = spare;
        words.clear();
        words.reserve(room)?;
        Ok(FlatLists {
            alloc,
            words,
            spans: BTreeMap::new(alloc),
            live: 0,
            spare: Vec::new(alloc),
        })
    }

    /// The list of a number; with no memory left all are as before.
    pub fn put(&mut self, number: u64, words: &[u64]) -> Result<(), AllocError>
        requires free { list_at self.old number ≡ [] }
        ensures ok { OnOk result (HasPut (list_at self.old) (list_at self.new) number words.now) }
        ensures err { OnErr result ((k : ℕ) → list_at self.new k ≡ list_at self.old k) }
    {
        let place = self.words.len();
        self.words.extend_from_slice(words)?;
        let len = words.len();
        self.spans.insert(number, Span { place, len })?;
        self.live += len;
        Ok(())
    }

    /// The list of a number.
    pub fn get(&self, number: u64) -> &[u64]
        ensures { result.now ≡ list_at self.now number }
    {
        match self.spans.get(&number) {
            Some(span) => span.of(&self.words),
            None => &[],
        }
    }

    /// The list of one number becomes that of another, with one word given anew. No word is copied; with no memory left all are as before.
    pub fn move_with(
        &mut self,
        from: u64,
        to: u64,
        index: usize,
        word: u64,
    ) -> Result<(), AllocError>
        requires other { to ≢ from }
        requires free { list_at self.old to ≡ [] }
        requires there { index < length (list_at self.old from) }
        ensures ok { OnOk result (HasMoved (list_at self.old) (list_at self.new) from to index word) }
        ensures err { OnErr result ((k : ℕ) → list_at self.new k ≡ list_at self.old k) }
    {
        let Some(span) = self.spans.get(&from) else {
            return Ok(());
        };
        let span = *span;
        self.spans.insert(to, span)?;
        self.spans.remove(&from);
        self.words[span.place + index] = word;
        Ok(())
    }

    /// Lets go the list of a number.
    pub fn let_go(&mut self, number: u64)
        ensures own { list_at self.new number ≡ [] }
        ensures others { (k : ℕ) → k ≢ number → list_at self.new k ≡ list_at self.old k }
    {
        if let Some(span) = self.spans.remove(&number) {
            self.live -= span.len;
            self.close_up();
        }
    }

    /// Lets go all lists but those of these numbers.
    pub fn keep_only(&mut self, numbers: &BTreeSet<u64>)
        ensures { (k : ℕ) → list_at self.new k ≡ if_kept numbers.now k (list_at self.old k) }
    {
        self.spans.retain(|number, _| numbers.contains(number));
        self.live = live_words(&self.spans);
        self.close_up();
    }

    /// Where more than half of the words are in no list, the lists move together, as far as there is memory for it: to a vector with room for as
    /// many words more, since lists come before others go.
    fn close_up(&mut self)
        ensures { (k : ℕ) → list_at self.new k ≡ list_at self.old k }
    {
        if self.words.len() - self.live > self.live {
            let room = self.live.saturating_mul(2);
            let spare = std::mem::replace(&mut self.spare, Vec::new(self.alloc));
            if let Ok(mut lists) = closed_up(self.alloc, spare, &self.words, &self.spans, room) {
                std::mem::swap(&mut lists.spare, &mut self.words);
                *self = lists;
            }
        }
    }
}

/// How many words are in spans.
fn live_words(spans: &BTreeMap<u64, Span>) -> usize
    requires { live_words spans.now.entries < 2 ^ 64 }
    ensures { result ≡ live_words spans.now.entries }
{
    let mut live = 0;
    for span in spans.values() {
        live += span.len;
    }
    live
}

/// The same lists, one after another, in a vector whose words are not needed.
fn closed_up(
    alloc: Global,
    spare: Vec<u64>,
    words: &[u64],
    spans: &BTreeMap<u64, Span>,
    room: usize,
) -> Result<FlatLists, AllocError>
    requires { AreSpans words.now (found spans.now.entries) }
    ensures { IfOk result (λ lists. (k : ℕ) → list_at lists k ≡ words_at words.now (found spans.now.entries) k) }
{
    let mut lists = FlatLists::with_room(alloc, spare, room)?;
    for (number, span) in spans {
        lists.put(*number, span.of(words))?;
    }
    Ok(lists)
}
