// Clear values by number.
ghost use Rattle.std.specs.Prelude.{◌≡◌, ◌<◌, [], ◌∷◌, ◌++◌, length, set, OnOk, OnErr};
ghost use Rattle.gates.specs.Clear.{value};
ghost use Rattle.gates.specs.Held.{kept_only};

use crate::flat_lists::FlatLists;
use crate::words::Words;
use std::alloc::{AllocError, Global};
use std::collections::BTreeSet;
use std::marker::Model;

/// Values, each at its number from 0 on, of which some may have been let go: their words are held no more. Clauses see the list of all, in
/// which a value that was let go has no words.
///
/// The words of all values stand in one vector.
#[derive(Drop, Debug)]
pub struct Values {
    held: FlatLists,
    count: usize,
}

impl Model for Values {
    ghost use Rattle.std.specs.Prelude.{ℕ, List};
    ghost use Rattle.gates.specs.Held.{first_values, NothingFrom};
    ghost use Rattle.gates.specs.inner.Spans.{list_at};

    ghost Value = { List (List ℕ) };

    ghost view = { λ v. first_values (list_at v.held) v.count };

    ghost invariant = { λ v. NothingFrom v.count (list_at v.held) };
}

impl Values {
    /// No value.
    pub fn new(alloc: Global) -> Self
        ensures { result ≡ [] }
    {
        Values {
            held: FlatLists::new(alloc),
            count: 0,
        }
    }

    /// One value more, with the next number; with no memory left, or no number, the values are as before.
    pub fn push(&mut self, words: Words) -> Result<(), AllocError>
        ensures ok { OnOk result (self.new ≡ self.old ++ words ∷ []) }
        ensures err { OnErr result (self.new ≡ self.old) }
    {
        let Some(count) = self.count.checked_add(1) else {
            return Err(AllocError);
        };
        self.held.put(self.count as u64, words.as_slice())?;
        self.count = count;
        Ok(())
    }

    /// How many values there are.
    pub fn len(&self) -> usize
        ensures { result ≡ length self.now }
    {
        self.count
    }

    /// The words of the value of a number, and none where no value has it.
    pub fn value(&self, number: u64) -> &[u64]
        ensures { result.now ≡ value self.now number }
    {
        self.held.get(number)
    }

    /// One value more, with the next number: that of an array, with one word given anew. The array is let go, and nothing of it is copied. With
    /// no memory left, or no number, the values are as before.
    pub fn put_in_place(&mut self, array: u64, index: usize, word: u64) -> Result<(), AllocError>
        requires { index < length (value self.old array) }
        ensures ok { OnOk result (self.new ≡ set self.old array [] ++ set (value self.old array) index word ∷ []) }
        ensures err { OnErr result (self.new ≡ self.old) }
    {
        let Some(count) = self.count.checked_add(1) else {
            return Err(AllocError);
        };
        self.held.move_with(array, self.count as u64, index, word)?;
        self.count = count;
        Ok(())
    }

    /// Lets go the words of the value of a number.
    pub fn let_go(&mut self, number: u64)
        ensures { self.new ≡ set self.old number [] }
    {
        self.held.let_go(number);
    }

    /// Lets go the words of all values but those of these numbers.
    pub fn keep_only(&mut self, numbers: &BTreeSet<u64>)
        ensures { self.new ≡ kept_only numbers.now self.old }
    {
        self.held.keep_only(numbers);
    }
}
