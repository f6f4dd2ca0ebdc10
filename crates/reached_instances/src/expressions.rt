// The instances that expressions call, and who may see what they give.
ghost use Rattle.std.specs.Prelude.{◌≡◌, ◌++◌, IfOk, map};
ghost use Rattle.std.specs.List.{slice_get};
ghost use Rattle.program_trees.specs.TypedTree.{typed_tree, typed_trees_of};
ghost use Rattle.program_trees.specs.TypedPrograms.{typed_function_tree};
ghost use Rattle.reached_instances.specs.Domains.{call_domain, domain, domains};
ghost use Rattle.reached_instances.specs.Calls.{called, calls, calls_of_all};
ghost use Rattle.reached_instances.specs.Views.{setting, instances_seen};

use crate::binding::binding_of;
use crate::instance::{BoundDomain, Instance};
use crate::setting::{Setting, given_domain, joined_domain, slot_domain};
use program_trees::{TypedExpression, TypedFunction};
use std::alloc::{AllocError, Global};

/// Notes the instance that a call names; who may see what it gives back.
pub fn call(
    alloc: Global,
    found: &mut Vec<Instance>,
    functions: &[TypedFunction],
    function: usize,
    arguments: &[BoundDomain],
) -> Result<BoundDomain, AllocError>
    ensures domain { IfOk result (λ d. d ≡
        call_domain (slice_get (map typed_function_tree functions.now) function) arguments.now) }
    ensures calls { IfOk result (λ _. instances_seen found.new.items ≡ instances_seen found.old.items ++
        called function (slice_get (map typed_function_tree functions.now) function) arguments.now) }
{
    let Some(callee) = functions.get(function) else {
        return Ok(BoundDomain::Public);
    };
    let binding = binding_of(alloc, callee, arguments)?;
    let given = given_domain(&binding, callee.given);
    found.push(Instance { function, binding })?;
    Ok(given)
}

/// Notes the instances that an expression calls; who may see what it gives.
#[cycle(expressions)]
pub fn expression(
    alloc: Global,
    found: &mut Vec<Instance>,
    here: &Setting<'_>,
    e: &TypedExpression,
) -> Result<BoundDomain, AllocError>
    ensures domain { IfOk result (λ d. d ≡ domain (setting here.now) (typed_tree e.now)) }
    ensures calls { IfOk result (λ _. instances_seen found.new.items ≡
        instances_seen found.old.items ++ calls (setting here.now) (typed_tree e.now)) }
{
    match e {
        TypedExpression::Word(_) | TypedExpression::Truth(_) | TypedExpression::Zero => {
            Ok(BoundDomain::Public)
        }
        TypedExpression::Variable(slot) => Ok(slot_domain(here, *slot)),
        TypedExpression::Call(_, function, arguments) => {
            let domains = expressions(alloc, found, here, arguments)?;
            call(alloc, found, here.functions, *function, &domains)
        }
        TypedExpression::Size(operand) | TypedExpression::Declassify(operand) => {
            expression(alloc, found, here, operand)?;
            Ok(BoundDomain::Public)
        }
        TypedExpression::Sum(operand)
        | TypedExpression::BitExtract(_, operand)
        | TypedExpression::Not(operand)
        | TypedExpression::Cast(_, operand) => expression(alloc, found, here, operand),
        TypedExpression::Element(_, array, position) => {
            let domain = expression(alloc, found, here, array)?;
            expression(alloc, found, here, position)?;
            Ok(domain)
        }
        TypedExpression::Cat(_, left, right)
        | TypedExpression::Lookup(_, left, right)
        | TypedExpression::Binary(_, _, _, left, right)
        | TypedExpression::CutShort(_, left, right) => {
            let left = expression(alloc, found, here, left)?;
            let right = expression(alloc, found, here, right)?;
            Ok(joined_domain(left, right))
        }
    }
}

// Likewise for the arguments of a call.
#[cycle(expressions)]
fn expressions(
    alloc: Global,
    found: &mut Vec<Instance>,
    here: &Setting<'_>,
    list: &Vec<TypedExpression>,
) -> Result<Vec<BoundDomain>, AllocError>
    ensures domains { IfOk result (λ ds. ds.items ≡ domains (setting here.now) (typed_trees_of (map typed_tree list.now.items))) }
    ensures calls { IfOk result (λ _. instances_seen found.new.items ≡
        instances_seen found.old.items ++ calls_of_all (setting here.now) (typed_trees_of (map typed_tree list.now.items))) }
{
    let mut domains = Vec::new(alloc);
    for each in list {
        let domain = expression(alloc, found, here, each)?;
        domains.push(domain)?;
    }
    Ok(domains)
}
