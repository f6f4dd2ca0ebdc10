// What a run computes with.
ghost use Rattle.std.specs.Prelude.{◌≡◌, ◌≤◌, length, IfOk};
ghost use Rattle.language_model.specs.Values.{default_words};

use program_trees::{Cast, DataType, Shape};
use std::alloc::{AllocError, Global};

/// Who may see a value.
#[derive(Clone, Copy)]
pub enum Secrecy {
    /// Everybody.
    Plain,
    /// Nobody alone: it is shared, and has the number of a gate's value; none where nothing was stored yet.
    Private(Option<u64>),
}

/// A value: who may see it, its shape, and its elements as words, a number with a sign as its two's complement and a truth value as
/// 1 or 0. A scalar has one element; no array has more than 1,048,576.
pub struct Value {
    pub secrecy: Secrecy,
    pub shape: Shape,
    pub words: Vec<u64>,
    ghost bounded: { length words.items ≤ 1048576 },
}

// Written out, so that an early exit calls this once for a value that it gives up, and doesn't take the value apart in its place.
impl Drop for Value {
    fn drop(self) {
        match self {
            Value {
                secrecy: _,
                shape: _,
                words: _,
            } => {}
        }
    }
}

/// The words of 0, of false, or of the empty array.
fn default_words(alloc: Global, array: bool) -> Result<Vec<u64>, AllocError>
    ensures { IfOk result (λ words. words.items ≡ default_words array) }
{
    if array {
        Ok(Vec::new(alloc))
    } else {
        Ok(vec![in alloc; 0]?)
    }
}

impl Value {
    ghost use Rattle.std.specs.Prelude.{◌≡◌, ◌≤◌, length, IfOk};
    ghost use Rattle.language_model.specs.Values.{plain, hidden, size, visible_words, is_secret, never_stored};
    ghost use Rattle.language_model.specs.Evaluation.{array_elements, nothing};
    ghost use Rattle.language_model.specs.Operations.{relabelled, scalar_word};
    ghost use Rattle.gates.specs.Clear.{first_word};
    ghost use Rattle.value_steps.specs.Views.{value_seen};

    /// A value that everybody may see.
    pub fn plain(shape: Shape, words: Vec<u64>) -> Value
        requires { length words.items ≤ 1048576 }
        ensures { value_seen result ≡ plain shape words.items }
    {
        Value {
            secrecy: Secrecy::Plain,
            shape,
            words,
        }
    }

    /// A number that everybody may see.
    pub fn number(alloc: Global, word: u64) -> Result<Value, AllocError>
        ensures { IfOk result (λ v. value_seen v ≡ scalar_word word) }
    {
        let words = vector_ops::repeated(alloc, 1, word)?;
        Ok(Value::plain(Shape::scalar(DataType::Uint64), words))
    }

    /// The value that nobody reads, which a function gives that gives nothing.
    pub fn unread(alloc: Global) -> Result<Value, AllocError>
        ensures { IfOk result (λ v. value_seen v ≡ nothing) }
    {
        Value::number(alloc, 0)
    }

    /// What a variable begins as into which nothing was stored: 0, false or the empty array, private or not.
    pub fn never_stored(alloc: Global, private: bool, shape: Shape) -> Result<Value, AllocError>
        ensures { IfOk result (λ v. value_seen v ≡ never_stored private shape) }
    {
        Ok(Value {
            secrecy: if private {
                Secrecy::Private(None)
            } else {
                Secrecy::Plain
            },
            shape,
            words: default_words(alloc, shape.array)?,
        })
    }

    /// The private value of a gate.
    pub fn hidden(shape: Shape, number: u64, words: Vec<u64>) -> Value
        requires { length words.items ≤ 1048576 }
        ensures { value_seen result ≡ hidden shape number words.items }
    {
        Value {
            secrecy: Secrecy::Private(Some(number)),
            shape,
            words,
        }
    }

    /// The same elements as the private value of a gate.
    pub(crate) fn into_hidden(self, number: u64) -> Value
        ensures { value_seen result ≡ hidden self.shape number self.words.items }
    {
        match self {
            Value {
                secrecy: _,
                shape,
                words,
            } => Value {
                secrecy: Secrecy::Private(Some(number)),
                shape,
                words,
            },
        }
    }

    /// The same words as a value of another shape, with the same number where it has one.
    pub(crate) fn relabelled(self, cast: Cast) -> Value
        ensures { value_seen result ≡ relabelled cast (value_seen self) }
    {
        match self {
            Value {
                secrecy,
                shape,
                words,
            } => Value {
                secrecy,
                shape: cast.shape(shape.array),
                words,
            },
        }
    }

    /// The elements.
    pub(crate) fn into_words(self) -> Vec<u64>
        ensures { result.items ≡ self.words.items }
    {
        match self {
            Value {
                secrecy: _,
                shape: _,
                words,
            } => words,
        }
    }

    /// How many elements the value has.
    pub fn size(&self) -> u64
        ensures size { result ≡ size (value_seen self.now) }
        ensures bounded { result ≤ 1048576 }
    {
        self.words.len() as u64
    }

    /// How many elements the value counts with as an argument: an array's all, and another's none.
    pub fn array_elements(&self) -> u64
        ensures exact { result ≡ array_elements (value_seen self.now) }
        ensures few { result ≤ 1048576 }
    {
        if self.shape.array { self.size() } else { 0 }
    }

    /// Whether not everybody may see the value.
    pub(crate) fn is_private(&self) -> bool
        ensures { result ≡ is_secret (value_seen self.now).secrecy }
    {
        match self.secrecy {
            Secrecy::Plain => false,
            Secrecy::Private(_) => true,
        }
    }

    /// The first word, and 0 where there is none.
    pub(crate) fn word(&self) -> u64
        ensures { result ≡ first_word self.now.words.items }
    {
        vector_ops::first_word(&self.words)
    }

    /// The first word of a public value. A private one isn't looked at: it gives 0.
    pub fn seen_word(&self) -> u64
        ensures { result ≡ first_word (visible_words (value_seen self.now)) }
    {
        match self.secrecy {
            Secrecy::Plain => self.word(),
            Secrecy::Private(_) => 0,
        }
    }

    /// The same value in memory of its own.
    pub fn copy(&self, alloc: Global) -> Result<Value, AllocError>
        ensures { IfOk result (λ v. value_seen v ≡ value_seen self.now) }
    {
        Ok(Value {
            secrecy: self.secrecy,
            shape: self.shape,
            words: Vec::from_slice(alloc, &self.words)?,
        })
    }
}
