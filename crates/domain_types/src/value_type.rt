use program_trees::DataType;
use sc_text::Span;

/// Who may see a value: everybody, or only what a private domain protects. Private domains are numbered from 0 in the order
/// in which the program declares them.
#[derive(Clone, Copy, PartialEq, Eq, PartialOrd, Ord)]
pub enum Protection {
    Public,
    Private(usize),
}

/// The type of a value: its domain, the type of its elements, and whether it is an array.
#[derive(Clone, Copy)]
pub struct ValueType {
    pub domain: Protection,
    pub element: DataType,
    pub array: bool,
}

/// What an expression gives: nothing, as a call of a void function, or a value.
#[derive(Clone, Copy)]
pub enum ExpressionType {
    Void,
    Value(ValueType),
}

/// An argument of a call: where it begins, and its type.
#[derive(Clone, Copy)]
pub struct Argument {
    pub place: Span,
    pub given: ValueType,
}
