// A share of a result.
ghost use Rattle.std.specs.Prelude.{◌≡◌, Some};
ghost use Rattle.miner_text.specs.Shares.{ResultShare as AResultShare};

use crate::types::type_word;
use program_trees::DataType;
use sc_text::Name;
use std::fmt;
use std::marker::Model;

/// A miner's share of a value that is published to the client: a word for each number, or one for 64 truth values, of which element k is bit
/// k mod 64 of word k div 64.
#[derive(Drop)]
pub struct ResultShare {
    name: Name,
    element: DataType,
    count: u64,
    words: Vec<u64>,
}

impl Model for ResultShare {
    ghost Value = { AResultShare };

    ghost view = { λ s. record { name = s.name; element = s.element; count = s.count; words = s.words.items } };
}

impl ResultShare {
    /// The share of a value of so many elements of this type that is published under this name.
    pub fn new(name: Name, element: DataType, count: u64, words: Vec<u64>) -> ResultShare
        ensures { result ≡ record { name = name; element = element; count = count; words = words.items } }
    {
        ResultShare {
            name,
            element,
            count,
            words,
        }
    }

    /// The name under which the value is published.
    pub fn name(&self) -> &Name
        ensures { result.now ≡ self.now.name }
    {
        &self.name
    }

    /// The type of the value's elements.
    pub fn element(&self) -> DataType
        ensures { result ≡ self.now.element }
    {
        self.element
    }

    /// How many elements the value has.
    pub fn count(&self) -> u64
        ensures { result ≡ self.now.count }
    {
        self.count
    }

    /// The words of the share.
    pub fn words(&self) -> &[u64]
        ensures { result.now ≡ self.now.words }
    {
        &self.words
    }
}

/// How many elements of a type there are.
#[derive(Clone, Copy)]
struct Counted {
    element: DataType,
    count: u64,
}

/// Writes the number of truth values, after a space; of numbers nothing, since their words tell.
impl fmt::Display for Counted {
    ghost use Rattle.view_text.specs.Text.{words_behind};
    ghost use Rattle.miner_text.specs.Lines.{count_of_type};

    ghost output = { λ c. Some (words_behind (count_of_type c.element c.count)) };

    fn fmt<W: fmt::Write>(&self, f: &mut fmt::Formatter<W>) -> fmt::Result {
        match self.element {
            DataType::Uint64 | DataType::Int64 => Ok(()),
            DataType::Bool => write!(f, " {}", self.count),
        }
    }
}

/// Writes the share's line, with its newline.
impl fmt::Display for ResultShare {
    ghost use Rattle.miner_text.specs.Lines.{share_line};

    ghost output = { λ share. Some (share_line share) };

    #[tactic(auto, unfolding(crate::specs::Lines::share_line), using(crate::proofs::Words::count_then_words))]
    fn fmt<W: fmt::Write>(&self, f: &mut fmt::Formatter<W>) -> fmt::Result {
        let name = self.name.as_str();
        let element = type_word(self.element);
        let counted = Counted {
            element: self.element,
            count: self.count,
        };
        write!(f, "share {name} {element}{counted}")?;
        for word in self.words.as_slice() {
            write!(f, " {word}")?;
        }
        writeln!(f, "")
    }
}
