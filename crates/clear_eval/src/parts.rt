// The parts of expressions and statements that are evaluated before they are.
ghost use Rattle.program_trees.specs.TypedTree.{typed_tree};
ghost use Rattle.program_trees.specs.TypedStatements.{typed_statement};
ghost use Rattle.clear_eval.specs.inner.Parts.{HasParts, HasStatementParts};

use program_trees::{Connective, TypedExpression, TypedStatement};

/// Two arrays that are joined, the left one first, and the line of the expression.
#[derive(Clone, Copy)]
pub struct Joined<'a> {
    pub line: u32,
    pub left: &'a TypedExpression,
    pub right: &'a TypedExpression,
}

/// What of an expression is evaluated before it.
#[derive(Clone, Copy)]
pub enum Parts<'a> {
    /// Nothing: it is a literal or a variable.
    Leaf,
    /// One operand.
    One(&'a TypedExpression),
    /// Two operands, the left one first.
    Two(&'a TypedExpression, &'a TypedExpression),
    /// Two arrays, each classified right after its evaluation.
    Joined(Joined<'a>),
    /// The arguments of a call, with its line and the number of its function.
    Call(u32, usize, &'a Vec<TypedExpression>),
    /// The operands of a connective, of which the right one may be left out.
    Connected(Connective, &'a TypedExpression, &'a TypedExpression),
}

/// The parts of an expression.
#[tactic(auto, unfolding(language_model::specs::Evaluation::value))]
pub fn parts_of(e: &TypedExpression) -> Parts<'_>
    ensures { HasParts (typed_tree e.now) result }
{
    match e {
        TypedExpression::Word(_)
        | TypedExpression::Truth(_)
        | TypedExpression::Zero
        | TypedExpression::Variable(_) => Parts::Leaf,
        TypedExpression::Size(x) => Parts::One(x),
        TypedExpression::Sum(x) => Parts::One(x),
        TypedExpression::BitExtract(_, x) => Parts::One(x),
        TypedExpression::Not(x) => Parts::One(x),
        TypedExpression::Cast(_, x) => Parts::One(x),
        TypedExpression::Declassify(x) => Parts::One(x),
        TypedExpression::Lookup(_, x, y) => Parts::Two(x, y),
        TypedExpression::Element(_, x, y) => Parts::Two(x, y),
        TypedExpression::Binary(_, _, _, x, y) => Parts::Two(x, y),
        TypedExpression::Cat(line, left, right) => Parts::Joined(Joined {
            line: *line,
            left,
            right,
        }),
        TypedExpression::Call(line, number, list) => Parts::Call(*line, *number, list),
        TypedExpression::CutShort(connective, x, y) => Parts::Connected(*connective, x, y),
    }
}

/// What of a statement is evaluated before it.
#[derive(Clone, Copy)]
pub enum StatementParts<'a> {
    /// Nothing.
    Plain,
    /// One expression.
    One(&'a TypedExpression),
    /// Two expressions, in this order.
    Two(&'a TypedExpression, &'a TypedExpression),
    /// The statements of a block.
    Block(&'a Vec<TypedStatement>),
    /// A condition, and what follows where it is true or not.
    If(&'a TypedExpression, &'a TypedStatement, &'a TypedStatement),
    /// The condition, the step and the body of a loop.
    Loop(&'a TypedExpression, &'a TypedStatement, &'a TypedStatement),
    /// The body of a loop, and the condition after it.
    DoWhile(&'a TypedStatement, &'a TypedExpression),
}

/// The parts of a statement.
#[tactic(auto, unfolding(language_model::specs::Evaluation::execute))]
pub fn statement_parts_of(s: &TypedStatement) -> StatementParts<'_>
    ensures { HasStatementParts (typed_statement s.now) result }
{
    match s {
        TypedStatement::Empty
        | TypedStatement::Break
        | TypedStatement::Continue
        | TypedStatement::Return(None)
        | TypedStatement::StoreDefault(_)
        | TypedStatement::Input(_, _, _) => StatementParts::Plain,
        TypedStatement::Block(list) => StatementParts::Block(list),
        TypedStatement::If(e, first, second) => StatementParts::If(e, first, second),
        TypedStatement::Loop(e, step, body) => StatementParts::Loop(e, step, body),
        TypedStatement::DoWhile(body, e) => StatementParts::DoWhile(body, e),
        TypedStatement::Return(Some(e)) => StatementParts::One(e),
        TypedStatement::Assert(_, e) => StatementParts::One(e),
        TypedStatement::Store(_, e) => StatementParts::One(e),
        TypedStatement::Publish(_, e) => StatementParts::One(e),
        TypedStatement::Evaluate(e) => StatementParts::One(e),
        TypedStatement::Fill(_, _, size, e) => StatementParts::Two(size, e),
        TypedStatement::StoreElement(_, _, index, e) => StatementParts::Two(index, e),
    }
}
