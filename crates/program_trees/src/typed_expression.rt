use crate::operators::{BinaryOperator, Cast, Connective, Operands};

/// An expression without names. A `u32` is the line where the construct begins; it stands where a trap can come.
#[cycle(typed_expressions)]
pub enum TypedExpression {
    /// A uint64 literal.
    Word(u64),
    /// A bool literal.
    Truth(bool),
    /// 0 as a number with a sign: what fills an array of such where no value is given.
    Zero,
    /// What stands in the slot of this number.
    Variable(usize),
    /// A call of the function of this number, with its arguments.
    Call(u32, usize, Vec<TypedExpression>),
    /// How many elements an array has.
    Size(Box<TypedExpression>),
    /// An array and the elements of another after it.
    Cat(u32, Box<TypedExpression>, Box<TypedExpression>),
    /// The sum of an array of numbers, with or without a sign.
    Sum(Box<TypedExpression>),
    /// The bits of words, 64 for each, the lowest first.
    BitExtract(u32, Box<TypedExpression>),
    /// The elements of a private array at private indices, of which nobody learns which they are: the array, and one index or an
    /// array of them.
    Lookup(u32, Box<TypedExpression>, Box<TypedExpression>),
    /// An element of an array, by its index.
    Element(u32, Box<TypedExpression>, Box<TypedExpression>),
    Not(Box<TypedExpression>),
    Cast(Cast, Box<TypedExpression>),
    Binary(u32, BinaryOperator, Operands, Box<TypedExpression>, Box<TypedExpression>),
    /// `&&` or `||` that may cut short.
    CutShort(Connective, Box<TypedExpression>, Box<TypedExpression>),
    Declassify(Box<TypedExpression>),
}

// Written out, so that an early exit calls this once for a tree that it gives up, and doesn't take the tree apart in its place.
impl Drop for TypedExpression {
    fn drop(self) {
        match self {
            TypedExpression::Word(_)
            | TypedExpression::Truth(_)
            | TypedExpression::Zero
            | TypedExpression::Variable(_)
            | TypedExpression::Call(_, _, _)
            | TypedExpression::Size(_)
            | TypedExpression::Cat(_, _, _)
            | TypedExpression::Sum(_)
            | TypedExpression::BitExtract(_, _)
            | TypedExpression::Lookup(_, _, _)
            | TypedExpression::Element(_, _, _)
            | TypedExpression::Not(_)
            | TypedExpression::Cast(_, _)
            | TypedExpression::Binary(_, _, _, _, _)
            | TypedExpression::CutShort(_, _, _)
            | TypedExpression::Declassify(_) => {}
        }
    }
}
