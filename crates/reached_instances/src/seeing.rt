// Who may see what expressions give.
ghost use Rattle.std.specs.Prelude.{◌≡◌, IfOk, map};
ghost use Rattle.std.specs.List.{slice_get};
ghost use Rattle.program_trees.specs.TypedTree.{typed_tree, typed_trees_of};
ghost use Rattle.program_trees.specs.TypedPrograms.{typed_function_tree};
ghost use Rattle.reached_instances.specs.Domains.{call_domain, domain, domains};
ghost use Rattle.reached_instances.specs.Views.{setting};

use crate::binding::binding_of;
use crate::instance::BoundDomain;
use crate::setting::{Setting, given_domain, joined_domain, slot_domain};
use program_trees::{TypedExpression, TypedFunction};
use std::alloc::{AllocError, Global};

/// Who may see what a call of the function with this number gives back, by its arguments' domains.
///
/// An error comes where memory runs short.
pub fn call_domain(
    alloc: Global,
    functions: &[TypedFunction],
    function: usize,
    arguments: &[BoundDomain],
) -> Result<BoundDomain, AllocError>
    ensures { IfOk result (λ d. d ≡
        call_domain (slice_get (map typed_function_tree functions.now) function) arguments.now) }
{
    let Some(callee) = functions.get(function) else {
        return Ok(BoundDomain::Public);
    };
    let binding = binding_of(alloc, callee, arguments)?;
    Ok(given_domain(&binding, callee.given))
}

/// Who may see what an expression gives, where it stands here.
///
/// An error comes where memory runs short.
#[cycle(domains)]
pub fn domain(
    alloc: Global,
    here: &Setting<'_>,
    e: &TypedExpression,
) -> Result<BoundDomain, AllocError>
    ensures { IfOk result (λ d. d ≡ domain (setting here.now) (typed_tree e.now)) }
{
    match e {
        TypedExpression::Word(_)
        | TypedExpression::Truth(_)
        | TypedExpression::Zero
        | TypedExpression::Size(_)
        | TypedExpression::Declassify(_) => Ok(BoundDomain::Public),
        TypedExpression::Variable(slot) => Ok(slot_domain(here, *slot)),
        TypedExpression::Call(_, function, arguments) => {
            let arguments = domains(alloc, here, arguments)?;
            call_domain(alloc, here.functions, *function, &arguments)
        }
        TypedExpression::Sum(operand)
        | TypedExpression::BitExtract(_, operand)
        | TypedExpression::Not(operand)
        | TypedExpression::Cast(_, operand)
        | TypedExpression::Element(_, operand, _) => domain(alloc, here, operand),
        TypedExpression::Cat(_, left, right)
        | TypedExpression::Lookup(_, left, right)
        | TypedExpression::Binary(_, _, _, left, right)
        | TypedExpression::CutShort(_, left, right) => {
            let left = domain(alloc, here, left)?;
            let right = domain(alloc, here, right)?;
            Ok(joined_domain(left, right))
        }
    }
}

/// Likewise for the arguments of a call.
#[cycle(domains)]
pub fn domains(
    alloc: Global,
    here: &Setting<'_>,
    list: &Vec<TypedExpression>,
) -> Result<Vec<BoundDomain>, AllocError>
    ensures { IfOk result (λ ds. ds.items ≡ domains (setting here.now) (typed_trees_of (map typed_tree list.now.items))) }
{
    let mut domains = Vec::new(alloc);
    for each in list {
        let domain = domain(alloc, here, each)?;
        domains.push(domain)?;
    }
    Ok(domains)
}
