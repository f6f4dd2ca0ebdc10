ghost use Rattle.std.specs.Prelude.{◌≡◌, IfOk};
ghost use Rattle.program_trees.specs.Statements.{target_tree};

use crate::expression::{DataType, Expression};
use sc_text::{Name, Span};
use std::alloc::{AllocError, Global};

/// A name in the text, with its place.
#[derive(Drop)]
pub struct Identifier {
    pub place: Span,
    pub text: Name,
}

impl Identifier {
    /// The same name in memory of its own.
    pub fn copy(&self, alloc: Global) -> Result<Identifier, AllocError>
        ensures { IfOk result (λ identifier. identifier ≡ self.now) }
    {
        Ok(Identifier {
            place: self.place,
            text: self.text.copy(alloc)?,
        })
    }
}

/// Who may see a value: everybody, or only what a protection domain or domain variable of this name protects.
pub enum Domain {
    Public,
    Named(Identifier),
}

impl Drop for Domain {
    fn drop(self) {
        match self {
            Domain::Public | Domain::Named(_) => {}
        }
    }
}

/// A type as it is written: its domain, the type of its elements, and whether it is an array.
pub struct DeclaredType {
    pub place: Span,
    pub domain: Domain,
    pub element: DataType,
    pub array: bool,
}

impl Drop for DeclaredType {
    fn drop(self) {
        match self {
            DeclaredType {
                place: _,
                domain: _,
                element: _,
                array: _,
            } => {}
        }
    }
}

/// A declaration of a variable, with its size and its first value where they are given.
pub struct Declaration {
    pub declared: DeclaredType,
    pub variable: Identifier,
    pub size: Option<Expression>,
    pub value: Option<Expression>,
}

impl Drop for Declaration {
    fn drop(self) {
        match self {
            Declaration {
                declared: _,
                variable: _,
                size: _,
                value: _,
            } => {}
        }
    }
}

/// What is assigned to: a variable, or an element of one.
pub struct Target {
    pub variable: Identifier,
    pub index: Option<Expression>,
}

impl Drop for Target {
    fn drop(self) {
        match self {
            Target {
                variable: _,
                index: _,
            } => {}
        }
    }
}

impl Target {
    /// An equal target in memory of its own.
    pub fn copy(&self, alloc: Global) -> Result<Target, AllocError>
        ensures { IfOk result (λ target. target_tree target ≡ target_tree self.now) }
    {
        let variable = self.variable.copy(alloc)?;
        let index = match &self.index {
            None => None,
            Some(index) => Some(index.copy(alloc)?),
        };
        Ok(Target { variable, index })
    }
}

/// A value that goes to a variable, or to an element of one.
pub struct Assignment {
    pub target: Target,
    pub value: Expression,
}

impl Drop for Assignment {
    fn drop(self) {
        match self {
            Assignment {
                target: _,
                value: _,
            } => {}
        }
    }
}

/// The first part of a `for`.
pub enum ForStart {
    Nothing,
    Declaration(Declaration),
    Assignment(Assignment),
}

impl Drop for ForStart {
    fn drop(self) {
        match self {
            ForStart::Nothing | ForStart::Declaration(_) | ForStart::Assignment(_) => {}
        }
    }
}

/// The third part of a `for`.
pub enum ForStep {
    Nothing,
    Assignment(Assignment),
    Expression(Expression),
}

impl Drop for ForStep {
    fn drop(self) {
        match self {
            ForStep::Nothing | ForStep::Assignment(_) | ForStep::Expression(_) => {}
        }
    }
}

/// A statement. A declaration begins at its type, an assignment at its target.
#[cycle(statements)]
pub enum Statement {
    Block(Span, Vec<Statement>),
    Empty(Span),
    If(Span, Expression, Box<Statement>, Option<Box<Statement>>),
    While(Span, Expression, Box<Statement>),
    DoWhile(Span, Box<Statement>, Expression),
    For(Span, ForStart, Option<Expression>, ForStep, Box<Statement>),
    Break(Span),
    Continue(Span),
    Return(Span, Option<Expression>),
    Assert(Span, Expression),
    Declaration(Declaration),
    Assignment(Assignment),
    Expression(Expression),
}

// Written out, as that of `Expression`.
impl Drop for Statement {
    fn drop(self) {
        match self {
            Statement::Block(_, _)
            | Statement::Empty(_)
            | Statement::If(_, _, _, _)
            | Statement::While(_, _, _)
            | Statement::DoWhile(_, _, _)
            | Statement::For(_, _, _, _, _)
            | Statement::Break(_)
            | Statement::Continue(_)
            | Statement::Return(_, _)
            | Statement::Assert(_, _)
            | Statement::Declaration(_)
            | Statement::Assignment(_)
            | Statement::Expression(_) => {}
        }
    }
}
