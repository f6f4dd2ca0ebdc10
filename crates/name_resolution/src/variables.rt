ghost use Rattle.std.specs.Prelude.{ℕ, List, ◌≡◌, ◌≢◌, ◌<◌, ◌≤◌, length, drop, IfOk, None, option_map, bytes_eq, if◌then◌else◌};
ghost use Rattle.declarations.specs.Index.{found};
ghost use Rattle.name_resolution.specs.Scopes.{known_of, nothing_known, inner, leaving, with_variable, variable_named};

use program_trees::Shape;
use std::alloc::{AllocError, Global};
use std::collections::BTreeMap;
use std::marker::Model;

/// A variable that is known: its slot, and what stands in it.
#[derive(Clone, Copy)]
pub struct Known {
    pub slot: usize,
    pub shape: Shape,
}

/// The latest variable of a name, with its number.
#[derive(Clone, Copy)]
pub struct Latest {
    pub number: usize,
    pub known: Known,
}

/// A variable, with the one of the same name that it hides.
#[derive(Clone, Copy)]
pub struct VariableEntry<'p> {
    name: &'p str,
    known: Known,
    hidden: Option<Latest>,
}

/// The variables that are known at a place. Clauses see the scope: the variables of the innermost block and those around it.
pub struct Variables<'p> {
    entries: Vec<VariableEntry<'p>>,
    latest: BTreeMap<&'p str, Latest>,
    // how many entries are of the blocks around the innermost one
    outer: usize,
}

// Written out, so that an early exit calls this once, and doesn't take the table apart in its place.
impl Drop for Variables<'_> {
    fn drop(self) {
        match self {
            Variables {
                entries: _,
                latest: _,
                outer: _,
            } => {}
        }
    }
}

impl<'p> Model for Variables<'p> {
    ghost use Rattle.name_resolution.specs.Scopes.{Scope};

    ghost Value = { Scope };

    ghost use Rattle.name_resolution.specs.inner.Table.{scope_of, IsTable};

    ghost view = { scope_of };

    ghost invariant = { IsTable };
}

impl<'p> Variables<'p> {
    /// No variables.
    pub fn new(alloc: Global) -> Variables<'p>
        ensures { result ≡ nothing_known }
    {
        Variables {
            entries: Vec::new(alloc),
            latest: BTreeMap::new(alloc),
            outer: 0,
        }
    }

    /// Begins a block; what `leave` wants to be told.
    pub fn enter(&mut self) -> usize
        ensures outer { result ≡ length self.old.outer }
        ensures inner { self.new ≡ inner self.old }
    {
        let outer = self.outer;
        self.outer = self.entries.len();
        outer
    }

    /// The variable of a name, if it is known.
    pub fn find(&self, name: &'p str) -> Option<Known>
        ensures { result ≡ option_map known_of (variable_named self.now name.now) }
    {
        match self.latest.get(&name) {
            Some(latest) => Some(latest.known),
            None => None,
        }
    }

    /// Declares a variable in the innermost block.
    pub fn declare(&mut self, name: &'p str, known: Known) -> Result<(), AllocError>
        ensures { IfOk result (λ _. self.new ≡ with_variable (record { name = name.now; known = known }) self.old) }
    {
        let number = self.entries.len();
        let hidden = self.latest.get(&name).copied();
        self.entries.push(VariableEntry {
            name,
            known,
            hidden,
        })?;
        match self.latest.insert(name, Latest { number, known }) {
            Ok(_) => Ok(()),
            Err(_) => {
                let _ = self.entries.pop();
                Err(AllocError)
            }
        }
    }

    // How many variables the innermost block has.
    fn block_len(&self) -> usize
        ensures { result ≡ length self.now.block }
    {
        self.entries.len() - self.outer
    }

    // Forgets the latest variable of the innermost block.
    fn forget(&mut self)
        requires { 0 < length self.old.block }
        ensures block { self.new.block ≡ drop 1 self.old.block }
        ensures outer { self.new.outer ≡ self.old.outer }
    {
        if let Some(entry) = self.entries.pop() {
            put_back(&mut self.latest, entry.name, entry.hidden);
        }
    }

    /// Ends the innermost block; `outer` is what `enter` told.
    pub fn leave(&mut self, outer: usize)
        requires { outer ≤ length self.old.outer }
        ensures { self.new ≡ leaving outer self.old }
    {
        while self.block_len() > 0 {
            self.forget();
        }
        self.outer = outer;
    }
}

// The name means again what it meant before its latest variable.
fn put_back<'p>(latest: &mut BTreeMap<&'p str, Latest>, name: &'p str, hidden: Option<Latest>)
    requires { found latest.old name.now ≢ None }
    ensures { (x : List ℕ) → found latest.new x ≡ (if bytes_eq name.now x then hidden else found latest.old x) }
{
    match hidden {
        None => {
            let _ = latest.remove(&name);
        }
        Some(hidden) => match latest.insert(name, hidden) {
            Ok(_) => {}
            Err(_) => {}
        },
    }
}
