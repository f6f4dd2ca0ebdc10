// What the declarations of a program declare.
ghost use Rattle.std.specs.Prelude.{◌≡◌, IfOk, map};
ghost use Rattle.program_trees.specs.Programs.{item_tree};
ghost use Rattle.declarations.specs.Declarations.{is_imported, is_kind, declared_in};
ghost use Rattle.declarations.specs.Views.{declared};

use crate::declarations::Declarations;
use crate::name_index::NameIndex;
use program_trees::Item;
use std::alloc::{AllocError, Global};

// Whether one of these imports the module of this name.
#[tactic(auto, using(crate::proofs::Growing::collecting))]
fn imports(name: &str, items: &[Item]) -> bool
    ensures { result ≡ is_imported name.now (map item_tree items.now) }
{
    let mut found = false;
    for item in items {
        if let Item::Import(imported) = item {
            let this = imported.text.as_str() == name;
            found = found || this;
        }
    }
    found
}

// Whether one of these declares the kind of this name.
#[tactic(auto, using(crate::proofs::Growing::collecting))]
fn declares_kind(name: &str, items: &[Item]) -> bool
    ensures { result ≡ is_kind name.now (map item_tree items.now) }
{
    let mut found = false;
    for item in items {
        if let Item::Kind(kind) = item {
            let this = kind.text.as_str() == name;
            found = found || this;
        }
    }
    found
}

/// What these declarations declare, wherever it stands.
#[tactic(auto, using(crate::proofs::Growing::collecting))]
pub fn collect<'p>(alloc: Global, items: &'p [Item]) -> Result<Declarations<'p>, AllocError>
    ensures { IfOk result (λ d. declared d ≡ declared_in (map item_tree items.now)) }
{
    let mut domains = NameIndex::new(alloc);
    let mut names = NameIndex::new(alloc);
    let mut functions = Vec::new(alloc);
    let mut rest = items;
    while let Some((item, more)) = rest.split_first() {
        match item {
            Item::Import(_) | Item::Kind(_) => {}
            Item::Domain(name, _) => domains = domains.with(name.text.as_str())?,
            Item::Function(function) => {
                names = names.with(function.function.text.as_str())?;
                functions.push(function)?;
            }
        }
        rest = more;
    }
    Ok(Declarations {
        stdlib: imports("stdlib", items),
        shared3p: imports("shared3p", items),
        kind_declared: declares_kind("shared3p", items),
        domains,
        names,
        functions,
    })
}
