// How many nodes a function's tree has: counted up to 4,294,967,295, which stands for more.
ghost use Rattle.std.specs.Prelude.{ℕ, ◌≡◌, ◌+◌, length, map};
ghost use Rattle.program_trees.specs.Tree.{expression, trees_of};
ghost use Rattle.program_trees.specs.Statements.{statement, statements_of, optional, declaration_tree, assignment_tree, start_tree, step_tree};
ghost use Rattle.program_trees.specs.Programs.{function_tree};
ghost use Rattle.name_resolution.specs.Sizes.{nodes, nodes_all, optional_nodes, declaration_nodes, assignment_nodes, start_nodes, step_nodes};
ghost use Rattle.name_resolution.specs.Sizes.{statement_nodes, statements_nodes, counted, size_of};

use program_trees::{Assignment, Declaration, Expression, ForStart, ForStep, Function, Statement};

// Two counts together.
fn both(a: u32, b: u32) -> u32
    ensures { (m : ℕ) (n : ℕ) → a ≡ counted m → b ≡ counted n → result ≡ counted (m + n) }
{
    a.saturating_add(b)
}

fn one_more(a: u32) -> u32
    ensures { (m : ℕ) → a ≡ counted m → result ≡ counted (1 + m) }
{
    a.saturating_add(1)
}

#[cycle(nodes)]
fn nodes(e: &Expression) -> u32
    ensures { result ≡ counted (nodes (expression e.now)) }
{
    match e {
        Expression::Number(_, _)
        | Expression::Truth(_, _)
        | Expression::Variable(_, _)
        | Expression::Argument(_, _) => 1,
        Expression::Call(_, _, arguments) => one_more(nodes_all(arguments)),
        Expression::Index(_, array, position) => one_more(both(nodes(array), nodes(position))),
        Expression::Parentheses(_, operand)
        | Expression::Not(_, operand)
        | Expression::Cast(_, _, operand)
        | Expression::Declassify(_, operand)
        | Expression::Publish(_, _, operand) => one_more(nodes(operand)),
        Expression::Binary(_, _, left, right) => one_more(both(nodes(left), nodes(right))),
    }
}

#[cycle(nodes)]
fn nodes_all(list: &Vec<Expression>) -> u32
    ensures { result ≡ counted (nodes_all (trees_of (map expression list.now.items))) }
{
    let mut count: u32 = 0;
    for each in list {
        count = both(count, nodes(each));
    }
    count
}

fn optional_nodes(e: &Option<Expression>) -> u32
    ensures { result ≡ counted (optional_nodes (optional e.now)) }
{
    match e {
        None => 0,
        Some(e) => nodes(e),
    }
}

fn declaration_nodes(d: &Declaration) -> u32
    ensures { result ≡ counted (declaration_nodes (declaration_tree d.now)) }
{
    one_more(both(optional_nodes(&d.size), optional_nodes(&d.value)))
}

fn assignment_nodes(a: &Assignment) -> u32
    ensures { result ≡ counted (assignment_nodes (assignment_tree a.now)) }
{
    let target = one_more(optional_nodes(&a.target.index));
    one_more(both(target, nodes(&a.value)))
}

fn start_nodes(start: &ForStart) -> u32
    ensures { result ≡ counted (start_nodes (start_tree start.now)) }
{
    match start {
        ForStart::Nothing => 0,
        ForStart::Declaration(d) => declaration_nodes(d),
        ForStart::Assignment(a) => assignment_nodes(a),
    }
}

fn step_nodes(step: &ForStep) -> u32
    ensures { result ≡ counted (step_nodes (step_tree step.now)) }
{
    match step {
        ForStep::Nothing => 0,
        ForStep::Assignment(a) => assignment_nodes(a),
        ForStep::Expression(e) => nodes(e),
    }
}

#[cycle(statements)]
fn statement_nodes(s: &Statement) -> u32
    ensures { result ≡ counted (statement_nodes (statement s.now)) }
{
    match s {
        Statement::Block(_, list) => one_more(statements_nodes(list)),
        Statement::Empty(_) | Statement::Break(_) | Statement::Continue(_) => 1,
        Statement::If(_, e, body, None) => one_more(both(nodes(e), statement_nodes(body))),
        Statement::If(_, e, body, Some(otherwise)) => {
            let rest = both(statement_nodes(body), statement_nodes(otherwise));
            one_more(both(nodes(e), rest))
        }
        Statement::While(_, e, body) => one_more(both(nodes(e), statement_nodes(body))),
        Statement::DoWhile(_, body, e) => one_more(both(statement_nodes(body), nodes(e))),
        Statement::For(_, start, e, step, body) => {
            let rest = both(step_nodes(step), statement_nodes(body));
            let rest = both(optional_nodes(e), rest);
            one_more(both(start_nodes(start), rest))
        }
        Statement::Return(_, e) => one_more(optional_nodes(e)),
        Statement::Assert(_, e) => one_more(nodes(e)),
        Statement::Declaration(d) => declaration_nodes(d),
        Statement::Assignment(a) => assignment_nodes(a),
        Statement::Expression(e) => one_more(nodes(e)),
    }
}

#[cycle(statements)]
fn statements_nodes(list: &Vec<Statement>) -> u32
    ensures { result ≡ counted (statements_nodes (statements_of (map statement list.now.items))) }
{
    let mut count: u32 = 0;
    for each in list {
        count = both(count, statement_nodes(each));
    }
    count
}

fn count_of(count: usize) -> u32
    ensures { result ≡ counted count }
{
    if count < 4_294_967_295 {
        count as u32
    } else {
        4_294_967_295
    }
}

/// The size of a function: its nodes, its body's block and itself among them, and its parameters.
pub fn size_of(function: &Function) -> u32
    ensures { result ≡ size_of (function_tree function.now) }
{
    let inside = both(
        statements_nodes(&function.body.statements),
        count_of(function.parameters.len()),
    );
    one_more(one_more(inside))
}
