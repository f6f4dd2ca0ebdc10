ghost use Rattle.std.specs.Prelude.{◌≡◌, drop};
ghost use Rattle.std.specs.List.{slice_get};
ghost use Rattle.reached_instances.specs.Domains.{domain_under, slot_domain, slot_is_private, next_is_private, slot_shape, given_domain, joined_domain};
ghost use Rattle.reached_instances.specs.Views.{setting};

use crate::instance::BoundDomain;
use program_trees::{DataType, Returned, Shape, Slot, SlotDomain, TypedFunction};

/// Where an expression stands: in a function of these that has these slots, whose domain variables are so bound.
#[derive(Clone, Copy)]
pub struct Setting<'a> {
    pub functions: &'a [TypedFunction],
    pub slots: &'a [Slot],
    pub binding: &'a [BoundDomain],
}

/// The domain that is written at a slot or a result, under a binding.
pub fn domain_under(binding: &[BoundDomain], domain: SlotDomain) -> BoundDomain
    ensures { result ≡ domain_under binding.now domain }
{
    match domain {
        SlotDomain::Public => BoundDomain::Public,
        SlotDomain::Private(number) => BoundDomain::Private(number),
        SlotDomain::Variable(number) => binding.get(number).copied().unwrap_or(BoundDomain::Public),
    }
}

/// Who may see what stands in a slot.
pub fn slot_domain(here: &Setting<'_>, number: usize) -> BoundDomain
    ensures { result ≡ slot_domain (setting here.now).binding (slice_get (setting here.now).slots number) }
{
    match here.slots.get(number) {
        None => BoundDomain::Public,
        Some(slot) => domain_under(here.binding, slot.domain),
    }
}

/// Whether what stands in a slot is private.
pub fn slot_is_private(here: &Setting<'_>, number: usize) -> bool
    ensures { result ≡ slot_is_private (setting here.now) number }
{
    slot_domain(here, number).is_private()
}

/// Whether the parameter of this number is private, where a function with these slots is called under this binding.
pub fn next_is_private(binding: &[BoundDomain], slots: &[Slot], number: usize) -> bool
    ensures { result ≡ next_is_private binding.now (drop number slots.now) }
{
    match slots.get(number) {
        None => false,
        Some(slot) => domain_under(binding, slot.domain).is_private(),
    }
}

/// The shape of what stands in a slot; where there is none, that of a number.
pub fn slot_shape(here: &Setting<'_>, number: usize) -> Shape
    ensures { result ≡ slot_shape (setting here.now) number }
{
    match here.slots.get(number) {
        None => Shape::scalar(DataType::Uint64),
        Some(slot) => slot.shape,
    }
}

/// Who may see what a function gives back.
pub fn given_domain(binding: &[BoundDomain], given: Returned) -> BoundDomain
    ensures { result ≡ given_domain binding.now given }
{
    match given {
        Returned::Nothing => BoundDomain::Public,
        Returned::Value(slot) => domain_under(binding, slot.domain),
    }
}

/// Who may see what two operands give: where one of them is private, it decides.
pub fn joined_domain(left: BoundDomain, right: BoundDomain) -> BoundDomain
    ensures { result ≡ joined_domain left right }
{
    match left {
        BoundDomain::Public => right,
        BoundDomain::Private(_) => left,
    }
}
