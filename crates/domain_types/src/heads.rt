// The faults of a template's head, which needs no binding.
ghost use Rattle.std.specs.Prelude.{◌≡◌, [], reverse};
ghost use Rattle.program_trees.specs.Programs.{function_tree};
ghost use Rattle.domain_types.specs.FunctionTypes.{is_earlier, later_of, hiding_faults, kind_faults, is_variable, is_in_parameter};
ghost use Rattle.domain_types.specs.FunctionTypes.{domain_variable_faults, domain_variables_faults};
ghost use Rattle.declarations.specs.Views.{declared};
ghost use Rattle.domain_types.specs.inner.LeastFault.{least};

use crate::defined_calls::is_named;
use crate::fault::{TypeFault, TypeProblem};
use crate::items::is_known_kind;
use crate::least_fault::{note, note_if};
use crate::protections::Protections;
use declarations::Declarations;
use program_trees::{DomainVariable, Function, Identifier, Parameter};
use sc_text::Span;

fn is_earlier(first: Span, second: Span) -> bool
    ensures { result ≡ is_earlier first second }
{
    first.line < second.line || (first.line == second.line && first.column < second.column)
}

fn later_of(first: Span, second: Span) -> Span
    ensures { result ≡ later_of first second }
{
    if is_earlier(first, second) {
        second
    } else {
        first
    }
}

// A domain variable is called as no kind or domain.
fn hides_none<'p>(
    least_fault: &mut Option<TypeFault>,
    protections: &Protections<'p>,
    name: &'p Identifier,
)
    ensures { least_fault.new ≡ least least_fault.old (hiding_faults name.now protections.now) }
{
    if let Some(first) = protections.first(name.text.as_str()) {
        note(
            least_fault,
            later_of(name.place, first.place),
            TypeProblem::Twice,
        );
    }
}

// The kind of a domain variable is known.
fn has_known_kind(
    least_fault: &mut Option<TypeFault>,
    declarations: &Declarations<'_>,
    kind: &Option<Identifier>,
)
    ensures { least_fault.new ≡ least least_fault.old (kind_faults (declared declarations.now) kind.now) }
{
    if let Some(kind) = kind {
        let known = is_known_kind(declarations, kind.text.as_str());
        note_if(least_fault, !known, kind.place, TypeProblem::UnknownName);
    }
}

// Whether a domain variable of this name is among these.
fn is_variable(name: &str, before: &[DomainVariable]) -> bool
    ensures { result ≡ is_variable name.now (reverse before.now) }
{
    let mut found = false;
    for variable in before {
        let this = name == variable.variable.text.as_str();
        found = found || this;
    }
    found
}

// Whether a domain variable of this name stands in a parameter.
fn is_in_parameter(name: &str, parameters: &[Parameter]) -> bool
    ensures { result ≡ is_in_parameter name.now parameters.now }
{
    let mut found = false;
    for parameter in parameters {
        let this = is_named(name, &parameter.declared.domain);
        found = found || this;
    }
    found
}

// A domain variable after others.
#[tactic(auto, using(crate::proofs::Faults::joins))]
fn domain_variable<'p>(
    least_fault: &mut Option<TypeFault>,
    declarations: &Declarations<'p>,
    protections: &Protections<'p>,
    parameters: &[Parameter],
    before: &[DomainVariable],
    variable: &'p DomainVariable,
)
    ensures { least_fault.new ≡ least least_fault.old
        (domain_variable_faults (declared declarations.now) protections.now parameters.now (reverse before.now) variable.now) }
{
    let name = &variable.variable;
    let text = name.text.as_str();
    has_known_kind(least_fault, declarations, &variable.kind);
    note_if(
        least_fault,
        is_variable(text, before),
        name.place,
        TypeProblem::Twice,
    );
    let imported = declarations.shared3p && text == "shared3p";
    note_if(least_fault, imported, name.place, TypeProblem::Twice);
    hides_none(least_fault, protections, name);
    let used = is_in_parameter(text, parameters);
    note_if(least_fault, !used, name.place, TypeProblem::TypeMismatch);
}

/// Checks the head of a function: the kinds and the names of its domain variables, and that each stands in a parameter.
#[tactic(auto, using(crate::proofs::Faults::joins))]
pub fn head<'p>(
    least_fault: &mut Option<TypeFault>,
    declarations: &Declarations<'p>,
    protections: &Protections<'p>,
    function: &'p Function,
)
    ensures { least_fault.new ≡ least least_fault.old
        (domain_variables_faults (declared declarations.now) protections.now (function_tree function.now).parameters []
        (function_tree function.now).variables) }
{
    let variables = function.variables.as_slice();
    for index in 0..variables.len() {
        domain_variable(
            least_fault,
            declarations,
            protections,
            &function.parameters,
            &variables[..index],
            &variables[index],
        );
    }
}
