// Kinds, and whether one is as wanted.
ghost use Rattle.std.specs.Prelude.{◌≡◌};
ghost use Rattle.verified_code.specs.Fitting.{bits_fit, cast_fits, cat_fits, classify_fits, element_fits, fill_fits, gives_fits, gives_none};
ghost use Rattle.verified_code.specs.Fitting.{array_of, element_of, kind_at, literal_fits, lookup_fits, may_be_literal, not_fits, public_as, public_scalar};
ghost use Rattle.verified_code.specs.Fitting.{is_condition, is_number, is_truth, is_unsigned, same_element, same_kind, size_fits, sum_fits};

use bytecode::{Kind, Register};
use program_trees::DataType;

fn is_unsigned(element: DataType) -> bool
    ensures { result ≡ is_unsigned element }
{
    matches!(element, DataType::Uint64)
}

fn is_truth(element: DataType) -> bool
    ensures { result ≡ is_truth element }
{
    matches!(element, DataType::Bool)
}

fn is_number(element: DataType) -> bool
    ensures { result ≡ is_number element }
{
    !is_truth(element)
}

pub(crate) fn same_element(left: DataType, right: DataType) -> bool
    ensures { result ≡ same_element left right }
{
    left == right
}

pub(crate) fn same_kind(left: Kind, right: Kind) -> bool
    ensures { result ≡ same_kind left right }
{
    left.secret == right.secret
        && same_element(left.element, right.element)
        && left.array == right.array
}

/// A public scalar of a data type.
pub(crate) fn public_scalar(element: DataType) -> Kind
    ensures { result ≡ public_scalar element }
{
    Kind {
        secret: false,
        element,
        array: false,
    }
}

/// The kind of a register; where it isn't there, one that nobody looks at.
pub(crate) fn kind_at(kinds: &[Kind], register: Register) -> Kind
    ensures { result ≡ kind_at kinds.now register.0 }
{
    match kinds.get(register.0 as usize) {
        Some(kind) => *kind,
        None => public_scalar(DataType::Uint64),
    }
}

/// Two registers are of one kind.
pub(crate) fn are_alike(kinds: &[Kind], to: Register, source: Register) -> bool
    ensures { result ≡ same_kind (kind_at kinds.now to.0) (kind_at kinds.now source.0) }
{
    same_kind(kind_at(kinds, to), kind_at(kinds, source))
}

fn element_of(array: Kind) -> Kind
    ensures { result ≡ element_of array }
{
    Kind {
        secret: array.secret,
        element: array.element,
        array: false,
    }
}

fn array_of(scalar: Kind) -> Kind
    ensures { result ≡ array_of scalar }
{
    Kind {
        secret: scalar.secret,
        element: scalar.element,
        array: true,
    }
}

/// Whether a word may be written down where an element of this type is wanted: no number with a sign may.
fn may_be_literal(element: DataType, word: u64) -> bool
    ensures { result ≡ may_be_literal element word }
{
    match element {
        DataType::Uint64 => true,
        DataType::Int64 => false,
        DataType::Bool => word < 2,
    }
}

pub(crate) fn literal_fits(kinds: &[Kind], to: Register, word: u64) -> bool
    ensures { result ≡ literal_fits (kind_at kinds.now to.0) word }
{
    let to = kind_at(kinds, to);
    same_kind(to, public_scalar(to.element)) && may_be_literal(to.element, word)
}

pub(crate) fn not_fits(kinds: &[Kind], to: Register, source: Register) -> bool
    ensures { result ≡ not_fits (kind_at kinds.now to.0) (kind_at kinds.now source.0) }
{
    let to = kind_at(kinds, to);
    let source = kind_at(kinds, source);
    same_kind(to, source) && is_truth(source.element)
}

pub(crate) fn cast_fits(kinds: &[Kind], to: Register, source: Register) -> bool
    ensures { result ≡ cast_fits (kind_at kinds.now to.0) (kind_at kinds.now source.0) }
{
    let to = kind_at(kinds, to);
    let source = kind_at(kinds, source);
    to.secret == source.secret && to.array == source.array
}

pub(crate) fn classify_fits(kinds: &[Kind], to: Register, source: Register) -> bool
    ensures { result ≡ classify_fits (kind_at kinds.now to.0) (kind_at kinds.now source.0) }
{
    let to = kind_at(kinds, to);
    let source = kind_at(kinds, source);
    let private = Kind {
        secret: true,
        element: source.element,
        array: source.array,
    };
    !source.secret && same_kind(to, private)
}

pub(crate) fn declassify_fits(kinds: &[Kind], to: Register, source: Register) -> bool
    ensures { result ≡ same_kind (kind_at kinds.now to.0) (public_as (kind_at kinds.now source.0)) }
{
    let to = kind_at(kinds, to);
    let source = kind_at(kinds, source);
    let public = Kind {
        secret: false,
        element: source.element,
        array: source.array,
    };
    same_kind(to, public)
}

pub(crate) fn fill_fits(kinds: &[Kind], to: Register, size: Register, value: Register) -> bool
    ensures { result ≡ fill_fits (kind_at kinds.now to.0) (kind_at kinds.now size.0) (kind_at kinds.now value.0) }
{
    let to = kind_at(kinds, to);
    let size = kind_at(kinds, size);
    let value = kind_at(kinds, value);
    same_kind(size, public_scalar(DataType::Uint64))
        && !value.array
        && same_kind(to, array_of(value))
}

pub(crate) fn element_fits(
    kinds: &[Kind],
    array: Register,
    index: Register,
    element: Register,
) -> bool
    ensures { result ≡ element_fits (kind_at kinds.now array.0) (kind_at kinds.now index.0) (kind_at kinds.now element.0) }
{
    let array = kind_at(kinds, array);
    let index = kind_at(kinds, index);
    let element = kind_at(kinds, element);
    array.array
        && same_kind(index, public_scalar(DataType::Uint64))
        && same_kind(element, element_of(array))
}

pub(crate) fn size_fits(kinds: &[Kind], to: Register, source: Register) -> bool
    ensures { result ≡ size_fits (kind_at kinds.now to.0) (kind_at kinds.now source.0) }
{
    let to = kind_at(kinds, to);
    let source = kind_at(kinds, source);
    source.array && same_kind(to, public_scalar(DataType::Uint64))
}

pub(crate) fn cat_fits(kinds: &[Kind], to: Register, left: Register, right: Register) -> bool
    ensures { result ≡ cat_fits (kind_at kinds.now to.0) (kind_at kinds.now left.0) (kind_at kinds.now right.0) }
{
    let to = kind_at(kinds, to);
    let left = kind_at(kinds, left);
    let right = kind_at(kinds, right);
    to.array && same_kind(left, to) && same_kind(right, to)
}

pub(crate) fn sum_fits(kinds: &[Kind], to: Register, source: Register) -> bool
    ensures { result ≡ sum_fits (kind_at kinds.now to.0) (kind_at kinds.now source.0) }
{
    let to = kind_at(kinds, to);
    let source = kind_at(kinds, source);
    source.array && is_number(source.element) && same_kind(to, element_of(source))
}

pub(crate) fn bits_fit(kinds: &[Kind], to: Register, source: Register) -> bool
    ensures { result ≡ bits_fit (kind_at kinds.now to.0) (kind_at kinds.now source.0) }
{
    let to = kind_at(kinds, to);
    let source = kind_at(kinds, source);
    let bits = Kind {
        secret: source.secret,
        element: DataType::Bool,
        array: true,
    };
    is_unsigned(source.element) && same_kind(to, bits)
}

pub(crate) fn lookup_fits(kinds: &[Kind], to: Register, array: Register, index: Register) -> bool
    ensures { result ≡ lookup_fits (kind_at kinds.now to.0) (kind_at kinds.now array.0) (kind_at kinds.now index.0) }
{
    let to = kind_at(kinds, to);
    let array = kind_at(kinds, array);
    let index = kind_at(kinds, index);
    let looked_up = Kind {
        secret: true,
        element: array.element,
        array: index.array,
    };
    array.secret
        && array.array
        && is_number(array.element)
        && index.secret
        && is_unsigned(index.element)
        && same_kind(to, looked_up)
}

pub(crate) fn is_condition(kinds: &[Kind], source: Register) -> bool
    ensures { result ≡ is_condition (kind_at kinds.now source.0) }
{
    let source = kind_at(kinds, source);
    same_kind(source, public_scalar(DataType::Bool))
}

pub(crate) fn gives_fits(kinds: &[Kind], wanted: Option<Kind>, given: Register) -> bool
    ensures { result ≡ gives_fits wanted (kind_at kinds.now given.0) }
{
    let given = kind_at(kinds, given);
    match wanted {
        Some(wanted) => same_kind(given, wanted),
        None => false,
    }
}

pub(crate) fn gives_none(gives: Option<Kind>) -> bool
    ensures { result ≡ gives_none gives }
{
    gives.is_none()
}
