ghost use Rattle.std.specs.Prelude.{◌≡◌, IfOk, option_map};
ghost use Rattle.program_trees.specs.Tree.{expression};
ghost use Rattle.program_trees.specs.Statements.{element_target, target_of, target_tree};
ghost use Rattle.program_trees.specs.Heights.{place_of};

use crate::statement::{Identifier, Target};
use sc_text::{Name, Span};
use std::alloc::{AllocError, Global};

/// The type of an element.
#[derive(Clone, Copy, PartialEq, Eq)]
pub enum DataType {
    Uint64,
    Int64,
    Bool,
}

/// An operator between two operands.
#[derive(Clone, Copy)]
pub enum Operator {
    Add,
    Subtract,
    Multiply,
    Divide,
    Remainder,
    Equal,
    NotEqual,
    Less,
    LessOrEqual,
    Greater,
    GreaterOrEqual,
    And,
    Or,
    Xor,
    /// `&&`
    AndAlso,
    /// `||`
    OrElse,
}

/// An expression. The first field of each node is the place where it begins: of an operator and an index that is where its
/// left part begins.
#[cycle(expressions)]
pub enum Expression {
    Number(Span, u64),
    Truth(Span, bool),
    /// A variable.
    Variable(Span, Name),
    /// A call of a function, with its arguments.
    Call(Span, Name, Vec<Expression>),
    /// An element of an array.
    Index(Span, Box<Expression>, Box<Expression>),
    Parentheses(Span, Box<Expression>),
    Not(Span, Box<Expression>),
    Cast(Span, DataType, Box<Expression>),
    Binary(Span, Operator, Box<Expression>, Box<Expression>),
    Declassify(Span, Box<Expression>),
    /// The input of a name.
    Argument(Span, Name),
    /// Gives a value to the client, under a name.
    Publish(Span, Name, Box<Expression>),
}

// Written out, so that an early exit calls this once for a tree that it gives up, and doesn't take the tree apart in its place.
impl Drop for Expression {
    fn drop(self) {
        match self {
            Expression::Number(_, _)
            | Expression::Truth(_, _)
            | Expression::Variable(_, _)
            | Expression::Call(_, _, _)
            | Expression::Index(_, _, _)
            | Expression::Parentheses(_, _)
            | Expression::Not(_, _)
            | Expression::Cast(_, _, _)
            | Expression::Binary(_, _, _, _)
            | Expression::Declassify(_, _)
            | Expression::Argument(_, _)
            | Expression::Publish(_, _, _) => {}
        }
    }
}

impl Expression {
    /// The place where it begins.
    pub fn place(&self) -> Span
        ensures { result ≡ place_of (expression self.now) }
    {
        match self {
            Expression::Number(place, _)
            | Expression::Truth(place, _)
            | Expression::Variable(place, _)
            | Expression::Call(place, _, _)
            | Expression::Index(place, _, _)
            | Expression::Parentheses(place, _)
            | Expression::Not(place, _)
            | Expression::Cast(place, _, _)
            | Expression::Binary(place, _, _, _)
            | Expression::Declassify(place, _)
            | Expression::Argument(place, _)
            | Expression::Publish(place, _, _) => *place,
        }
    }

    /// The same as a target, if it may be assigned to: a variable, or an element of one.
    pub fn into_target(self) -> Option<Target>
        ensures { option_map target_tree result ≡ target_of (expression self) }
    {
        match self {
            Expression::Variable(place, text) => Some(Target {
                variable: Identifier { place, text },
                index: None,
            }),
            Expression::Index(_, array, index) => {
                Box::into_inner(array).into_element(Box::into_inner(index))
            }
            _ => None,
        }
    }

    /// The element at this index as a target, if this is a variable.
    fn into_element(self, index: Expression) -> Option<Target>
        ensures { option_map target_tree result ≡ element_target (expression self) (expression index) }
    {
        match self {
            Expression::Variable(place, text) => Some(Target {
                variable: Identifier { place, text },
                index: Some(index),
            }),
            _ => None,
        }
    }

    /// An equal tree in memory of its own.
    #[cycle(copies)]
    pub fn copy(&self, alloc: Global) -> Result<Expression, AllocError>
        ensures { IfOk result (λ e. expression e ≡ expression self.now) }
    {
        match self {
            Expression::Number(place, word) => Ok(Expression::Number(*place, *word)),
            Expression::Truth(place, truth) => Ok(Expression::Truth(*place, *truth)),
            Expression::Variable(place, name) => {
                let name = name.copy(alloc)?;
                Ok(Expression::Variable(*place, name))
            }
            Expression::Call(place, name, arguments) => {
                let mut copies = Vec::new(alloc);
                for argument in arguments {
                    copies.push(argument.copy(alloc)?)?;
                }
                Ok(Expression::Call(*place, name.copy(alloc)?, copies))
            }
            Expression::Index(place, array, position) => {
                let array = array.copy_boxed(alloc)?;
                Ok(Expression::Index(*place, array, position.copy_boxed(alloc)?))
            }
            Expression::Parentheses(place, e) => Ok(Expression::Parentheses(
                *place,
                e.copy_boxed(alloc)?,
            )),
            Expression::Not(place, e) => Ok(Expression::Not(*place, e.copy_boxed(alloc)?)),
            Expression::Cast(place, kind, e) => Ok(Expression::Cast(
                *place,
                *kind,
                e.copy_boxed(alloc)?,
            )),
            Expression::Binary(place, operator, a, b) => {
                let left = a.copy_boxed(alloc)?;
                Ok(Expression::Binary(*place, *operator, left, b.copy_boxed(alloc)?))
            }
            Expression::Declassify(place, e) => Ok(Expression::Declassify(
                *place,
                e.copy_boxed(alloc)?,
            )),
            Expression::Argument(place, name) => {
                let name = name.copy(alloc)?;
                Ok(Expression::Argument(*place, name))
            }
            Expression::Publish(place, name, e) => {
                let value = e.copy_boxed(alloc)?;
                Ok(Expression::Publish(*place, name.copy(alloc)?, value))
            }
        }
    }

    #[cycle(copies)]
    fn copy_boxed(&self, alloc: Global) -> Result<Box<Expression>, AllocError>
        ensures { IfOk result (λ b. expression b.value ≡ expression self.now) }
    {
        let copy = self.copy(alloc)?;
        Ok(Box::new(alloc, copy)?)
    }
}
