ghost use Rattle.std.specs.Prelude.{◌≡◌, ◌++◌, ◌∷◌, [], IfOk};
ghost use Rattle.declarations.specs.Declarations.{number_in};

use std::alloc::{AllocError, Global};
use std::collections::BTreeMap;
use std::marker::Model;

/// Names in order, with where each stands first. Clauses see the list of the names' bytes.
pub struct NameIndex<'p> {
    names: Vec<&'p str>,
    numbers: BTreeMap<&'p str, usize>,
}

// Written out, so that an early exit calls this once, and doesn't take the index apart in its place.
impl Drop for NameIndex<'_> {
    fn drop(self) {
        match self {
            NameIndex {
                names: _,
                numbers: _,
            } => {}
        }
    }
}

impl<'p> Model for NameIndex<'p> {
    ghost use Rattle.std.specs.Prelude.{ℕ, List, map};

    ghost Value = { List (List ℕ) };

    ghost use Rattle.declarations.specs.Index.{text_of, IsNumbered};

    ghost view = { λ a. map text_of a.names.items };

    ghost invariant = { λ a. IsNumbered a.names.items a.numbers };
}

impl<'p> NameIndex<'p> {
    /// No names.
    pub fn new(alloc: Global) -> NameIndex<'p>
        ensures { result ≡ [] }
    {
        NameIndex {
            names: Vec::new(alloc),
            numbers: BTreeMap::new(alloc),
        }
    }

    /// These names and one after them.
    pub fn with(self, name: &'p str) -> Result<NameIndex<'p>, AllocError>
        ensures { IfOk result (λ index. index ≡ self.entry ++ name.now ∷ []) }
    {
        let NameIndex {
            mut names,
            mut numbers,
        } = self;
        if numbers.get(&name).is_none() {
            numbers.insert(name, names.len())?;
        }
        names.push(name)?;
        Ok(NameIndex { names, numbers })
    }

    /// Where a name stands first, if it is there.
    pub fn number(&self, name: &'p str) -> Option<usize>
        ensures { result ≡ number_in name.now self.now }
    {
        self.numbers.get(&name).copied()
    }
}
