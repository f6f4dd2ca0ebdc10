use crate::typed_expression::TypedExpression;
use sc_text::Name;

/// A statement without names but those of inputs and outputs. A `u32` is the line where the construct begins; it stands where a
/// trap can come.
#[cycle(typed_statements)]
pub enum TypedStatement {
    /// Nothing.
    Empty,
    /// One statement after another.
    Block(Vec<TypedStatement>),
    /// The first statement where the condition is true, else the second.
    If(TypedExpression, Box<TypedStatement>, Box<TypedStatement>),
    /// While the condition is true: the body, and then the step. `continue` goes to the step.
    Loop(TypedExpression, Box<TypedStatement>, Box<TypedStatement>),
    /// The body, again while the condition after it is true. `continue` goes to the condition.
    DoWhile(Box<TypedStatement>, TypedExpression),
    Break,
    Continue,
    Return(Option<TypedExpression>),
    Assert(u32, TypedExpression),
    /// Stores a value in the slot of this number.
    Store(usize, TypedExpression),
    /// Stores 0, false or the empty array in the slot of this number.
    StoreDefault(usize),
    /// Fills the slot of this number with an array of this size, whose elements are all this value.
    Fill(u32, usize, TypedExpression, TypedExpression),
    /// Stores the input of this name in the slot of this number.
    Input(u32, usize, Name),
    /// Stores at this index of the array in the slot of this number the value after.
    StoreElement(u32, usize, TypedExpression, TypedExpression),
    /// Gives a value to the client, under a name.
    Publish(Name, TypedExpression),
    /// Evaluates an expression for what it does.
    Evaluate(TypedExpression),
}

// Written out, as that of `TypedExpression`.
impl Drop for TypedStatement {
    fn drop(self) {
        match self {
            TypedStatement::Empty
            | TypedStatement::Block(_)
            | TypedStatement::If(_, _, _)
            | TypedStatement::Loop(_, _, _)
            | TypedStatement::DoWhile(_, _)
            | TypedStatement::Break
            | TypedStatement::Continue
            | TypedStatement::Return(_)
            | TypedStatement::Assert(_, _)
            | TypedStatement::Store(_, _)
            | TypedStatement::StoreDefault(_)
            | TypedStatement::Fill(_, _, _, _)
            | TypedStatement::Input(_, _, _)
            | TypedStatement::StoreElement(_, _, _, _)
            | TypedStatement::Publish(_, _)
            | TypedStatement::Evaluate(_) => {}
        }
    }
}
