//! The two trees of a program. The first is as the grammar of `docs/language.md` has it: each node with the place where it begins.
//! The second is what later stages read of a program that the checker has accepted: its functions in the order in which they
//! are first called, names being numbers, the data type and the dimension settled in each operator, and nothing left to look up.
//!
//! What `x op= y`, `x++` and `x--` stand for is written out in the first tree (`x = x op y`). Each node of both has a pure twin
//! in `specs/`, which contracts cite; an expression of the first and what is assigned to have a copy call.
#![tactic(auto)]

mod expression;
mod function;
mod kinds;
mod operators;
mod program;
mod statement;
mod typed_expression;
mod typed_function;
mod typed_statement;

pub use expression::{DataType, Expression, Operator};
pub use function::{Block, DomainVariable, Function, Parameter, ResultType};
pub use kinds::{Shape, Slot, SlotDomain};
pub use operators::{
    BinaryOperator, BoolOperator, Cast, Connective, Operands, Operation, OperatorSign,
};
pub use program::{Item, Program};
pub use statement::{
    Assignment, Declaration, DeclaredType, Domain, ForStart, ForStep, Identifier, Statement, Target,
};
pub use typed_expression::TypedExpression;
pub use typed_function::{Returned, TypedFunction, TypedProgram};
pub use typed_statement::TypedStatement;
