use crate::statement::{DeclaredType, Identifier, Statement};
use sc_text::Span;

/// A domain variable of a template, with the kind that it is bound to a domain of, where one is given.
pub struct DomainVariable {
    pub variable: Identifier,
    pub kind: Option<Identifier>,
}

impl Drop for DomainVariable {
    fn drop(self) {
        match self {
            DomainVariable {
                variable: _,
                kind: _,
            } => {}
        }
    }
}

/// A parameter of a function.
pub struct Parameter {
    pub declared: DeclaredType,
    pub variable: Identifier,
}

impl Drop for Parameter {
    fn drop(self) {
        match self {
            Parameter {
                declared: _,
                variable: _,
            } => {}
        }
    }
}

/// What a function gives back.
pub enum ResultType {
    Void,
    Value(DeclaredType),
}

impl Drop for ResultType {
    fn drop(self) {
        match self {
            ResultType::Void | ResultType::Value(_) => {}
        }
    }
}

/// The body of a function.
pub struct Block {
    pub place: Span,
    pub statements: Vec<Statement>,
}

impl Drop for Block {
    fn drop(self) {
        match self {
            Block {
                place: _,
                statements: _,
            } => {}
        }
    }
}

/// A function; it is a template where it has domain variables.
pub struct Function {
    pub variables: Vec<DomainVariable>,
    pub result: ResultType,
    pub function: Identifier,
    pub parameters: Vec<Parameter>,
    pub body: Block,
}

impl Drop for Function {
    fn drop(self) {
        match self {
            Function {
                variables: _,
                result: _,
                function: _,
                parameters: _,
                body: _,
            } => {}
        }
    }
}
