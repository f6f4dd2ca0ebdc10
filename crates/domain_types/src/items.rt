// The faults of declarations.
ghost use Rattle.std.specs.Prelude.{◌≡◌, [], IfOk, map};
ghost use Rattle.program_trees.specs.Programs.{function_tree, item_tree};
ghost use Rattle.declarations.specs.Declarations.{is_known_kind};
ghost use Rattle.domain_types.specs.ProgramTypes.{is_module, space_faults, item_faults, items_faults, is_main, has_main};
ghost use Rattle.declarations.specs.Views.{declared, tree_at};
ghost use Rattle.domain_types.specs.inner.LeastFault.{least};

use crate::fault::{TypeFault, TypeProblem};
use crate::least_fault::note_if;
use declarations::{Declarations, NameIndex};
use program_trees::{Function, Identifier, Item, ResultType};
use std::alloc::{AllocError, Global};

fn is_module(name: &str) -> bool
    ensures { result ≡ is_module name.now }
{
    name == "stdlib" || name == "shared3p"
}

/// Whether a kind of this name is imported or declared.
pub fn is_known_kind(declarations: &Declarations<'_>, name: &str) -> bool
    ensures { result ≡ is_known_kind (declared declarations.now) name.now }
{
    name == "shared3p" && (declarations.shared3p || declarations.kind_declared)
}

// The name of a kind or domain after others is new.
fn is_new<'p>(
    least_fault: &mut Option<TypeFault>,
    declarations: &Declarations<'p>,
    kinds: &NameIndex<'p>,
    name: &'p Identifier,
)
    ensures { least_fault.new ≡ least least_fault.old (space_faults (declared declarations.now) kinds.now name.now) }
{
    let text = name.text.as_str();
    let twice = kinds.number(text).is_some() || (declarations.shared3p && text == "shared3p");
    note_if(least_fault, twice, name.place, TypeProblem::Twice);
}

// What a declaration does against the rules, after these kinds and domains and after these functions.
#[tactic(auto, using(crate::proofs::Faults::joins))]
fn item_faults<'p>(
    least_fault: &mut Option<TypeFault>,
    declarations: &Declarations<'p>,
    kinds: &NameIndex<'p>,
    functions: &NameIndex<'p>,
    item: &'p Item,
)
    ensures { least_fault.new ≡ least least_fault.old (item_faults (declared declarations.now) kinds.now functions.now (item_tree item.now)) }
{
    match item {
        Item::Import(name) => {
            let known = is_module(name.text.as_str());
            note_if(least_fault, !known, name.place, TypeProblem::BadImport);
        }
        Item::Kind(name) => {
            let known = name.text.as_str() == "shared3p";
            note_if(least_fault, !known, name.place, TypeProblem::UnknownName);
            is_new(least_fault, declarations, kinds, name);
        }
        Item::Domain(name, kind) => {
            is_new(least_fault, declarations, kinds, name);
            let known = is_known_kind(declarations, kind.text.as_str());
            note_if(least_fault, !known, kind.place, TypeProblem::UnknownName);
        }
        Item::Function(function) => {
            let name = function.function.text.as_str();
            let twice = declarations.built_in(name).is_some() || functions.number(name).is_some();
            note_if(
                least_fault,
                twice,
                function.function.place,
                TypeProblem::Twice,
            );
        }
    }
}

/// Checks the names of the declarations.
#[tactic(auto, using(crate::proofs::Faults::joins))]
pub fn items<'p>(
    alloc: Global,
    least_fault: &mut Option<TypeFault>,
    declarations: &Declarations<'p>,
    list: &'p [Item],
) -> Result<(), AllocError>
    ensures { IfOk result (λ _. least_fault.new ≡ least least_fault.old (items_faults (declared declarations.now) [] [] (map item_tree list.now))) }
{
    let mut kinds = NameIndex::new(alloc);
    let mut functions = NameIndex::new(alloc);
    let mut rest = list;
    while let Some((item, more)) = rest.split_first() {
        item_faults(least_fault, declarations, &kinds, &functions, item);
        match item {
            Item::Import(_) => {}
            Item::Kind(name) => kinds = kinds.with(name.text.as_str())?,
            Item::Domain(name, _) => kinds = kinds.with(name.text.as_str())?,
            Item::Function(function) => {
                functions = functions.with(function.function.text.as_str())?;
            }
        }
        rest = more;
    }
    Ok(())
}

fn is_main(function: &Function) -> bool
    ensures { result ≡ is_main (function_tree function.now) }
{
    let void = match &function.result {
        ResultType::Void => true,
        ResultType::Value(_) => false,
    };
    function.function.text.as_str() == "main"
        && function.variables.is_empty()
        && void
        && function.parameters.is_empty()
}

/// Whether there is a plain `void main()`.
pub fn has_main(functions: &[&Function]) -> bool
    ensures { result ≡ has_main (map tree_at functions.now) }
{
    let mut found = false;
    for function in functions {
        let this = is_main(function);
        found = found || this;
    }
    found
}
