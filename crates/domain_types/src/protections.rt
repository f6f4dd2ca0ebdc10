// The kinds and domains of a program.
ghost use Rattle.std.specs.Prelude.{◌≡◌, ◌++◌, ◌∷◌, [], IfOk, map, option_map, bytes_eq};
ghost use Rattle.std.specs.List.{find};
ghost use Rattle.program_trees.specs.Programs.{item_tree};
ghost use Rattle.domain_types.specs.FunctionTypes.{protections_of};
ghost use Rattle.domain_types.specs.inner.Lent.{identifier_at};

use declarations::NameIndex;
use program_trees::{Identifier, Item};
use std::alloc::{AllocError, Global};
use std::marker::Model;

/// The kinds and domains of a program in order, which share one space of names. Clauses see the list of them.
pub struct Protections<'p> {
    names: NameIndex<'p>,
    identifiers: Vec<&'p Identifier>,
}

// Written out, as that of `NameIndex`.
impl Drop for Protections<'_> {
    fn drop(self) {
        match self {
            Protections {
                names: _,
                identifiers: _,
            } => {}
        }
    }
}

impl<'p> Model for Protections<'p> {
    ghost use Rattle.std.specs.Prelude.{List, map, ◌≡◌};
    ghost use Rattle.program_trees.specs.declared.statement.Identifier.{Identifier};
    ghost use Rattle.domain_types.specs.inner.Lent.{identifier_at, text_at};

    ghost Value = { List Identifier };

    ghost view = { λ a. map identifier_at a.identifiers.items };

    ghost invariant = { λ a. a.names ≡ map text_at a.identifiers.items };
}

impl<'p> Protections<'p> {
    fn new(alloc: Global) -> Protections<'p>
        ensures { result ≡ [] }
    {
        Protections {
            names: NameIndex::new(alloc),
            identifiers: Vec::new(alloc),
        }
    }

    // These and one after them.
    #[tactic(auto, using(declarations::proofs::Growing::collecting))]
    fn with(self, identifier: &'p Identifier) -> Result<Protections<'p>, AllocError>
        ensures { IfOk result (λ protections. protections ≡ self.entry ++ identifier.now ∷ []) }
    {
        let Protections {
            names,
            mut identifiers,
        } = self;
        let names = names.with(identifier.text.as_str())?;
        identifiers.push(identifier)?;
        Ok(Protections { names, identifiers })
    }

    /// The kinds and domains that these declarations declare.
    #[tactic(auto, using(declarations::proofs::Growing::collecting))]
    pub fn collect(alloc: Global, items: &'p [Item]) -> Result<Protections<'p>, AllocError>
        ensures { IfOk result (λ protections. protections ≡ protections_of (map item_tree items.now)) }
    {
        let mut protections = Protections::new(alloc);
        let mut rest = items;
        while let Some((item, more)) = rest.split_first() {
            match item {
                Item::Kind(name) => protections = protections.with(name)?,
                Item::Domain(name, _) => protections = protections.with(name)?,
                Item::Import(_) | Item::Function(_) => {}
            }
            rest = more;
        }
        Ok(protections)
    }

    /// The first of this name, if it is there.
    pub fn first(&self, name: &'p str) -> Option<&'p Identifier>
        ensures { option_map identifier_at result ≡ find (λ (y : Identifier). bytes_eq name.now y.text) self.now }
    {
        match self.names.number(name) {
            None => None,
            Some(number) => match self.identifiers.get(number) {
                None => None,
                Some(identifier) => Some(*identifier),
            },
        }
    }
}
