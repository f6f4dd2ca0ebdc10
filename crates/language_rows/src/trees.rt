// Expressions, and the trees that they are read as.
use expression_parser::{Parsed, expression};
use program_trees::{DataType, Expression, Operator};
use row_files::Lines;
use secrec_lexer::{Token, lex};
use std::alloc::Global;

fn sign(operator: Operator) -> &'static str {
    match operator {
        Operator::Add => "+",
        Operator::Subtract => "-",
        Operator::Multiply => "*",
        Operator::Divide => "/",
        Operator::Remainder => "%",
        Operator::Equal => "==",
        Operator::NotEqual => "!=",
        Operator::Less => "<",
        Operator::LessOrEqual => "<=",
        Operator::Greater => ">",
        Operator::GreaterOrEqual => ">=",
        Operator::And => "&",
        Operator::Or => "|",
        Operator::Xor => "^",
        Operator::AndAlso => "&&",
        Operator::OrElse => "||",
    }
}

// What stands at a node.
fn word(tree: &Expression) -> &str {
    match tree {
        Expression::Number(_, _) => "number",
        Expression::Truth(_, true) => "true",
        Expression::Truth(_, false) => "false",
        Expression::Variable(_, name) => name.as_str(),
        Expression::Call(_, name, _) => name.as_str(),
        Expression::Index(_, _, _) => "index",
        Expression::Parentheses(_, _) => "()",
        Expression::Not(_, _) => "!",
        Expression::Cast(_, DataType::Uint64, _) => "uint64",
        Expression::Cast(_, DataType::Int64, _) => "int64",
        Expression::Cast(_, DataType::Bool, _) => "bool",
        Expression::Binary(_, operator, _, _) => sign(*operator),
        Expression::Declassify(_, _) => "declassify",
        Expression::Argument(_, name) => name.as_str(),
        Expression::Publish(_, name, _) => name.as_str(),
    }
}

// The kind of a node that has a name.
fn kind(tree: &Expression) -> &'static str {
    match tree {
        Expression::Call(_, _, _) => "call ",
        Expression::Argument(_, _) => "argument ",
        Expression::Publish(_, _, _) => "publish ",
        _ => "",
    }
}

// Each node before its children, in square brackets, with the column where it begins.
fn spell(lines: &mut Lines, tree: &Expression) {
    write!(
        lines,
        " [{}{}@{}",
        kind(tree),
        word(tree),
        tree.place().column
    );
    match tree {
        Expression::Number(_, number) => write!(lines, " {number}"),
        Expression::Call(_, _, arguments) => {
            for argument in arguments {
                spell(lines, argument);
            }
        }
        Expression::Index(_, left, right) | Expression::Binary(_, _, left, right) => {
            spell(lines, left);
            spell(lines, right);
        }
        Expression::Parentheses(_, inner)
        | Expression::Not(_, inner)
        | Expression::Cast(_, _, inner)
        | Expression::Declassify(_, inner)
        | Expression::Publish(_, _, inner) => spell(lines, inner),
        _ => {}
    }
    lines.add("]");
}

// The height of a tree and the column of the token after it, and the tree.
fn tell_parsed(lines: &mut Lines, parsed: &Parsed, rest: &[Token]) {
    let column = match rest.first() {
        Some(token) => token.place.column,
        None => 0,
    };
    write!(lines, "{} {column}", parsed.height);
    spell(lines, &parsed.tree);
    lines.add("\n");
}

fn tell_tokens(alloc: Global, lines: &mut Lines, tokens: &[Token], room: u8) {
    match expression(alloc, tokens, room) {
        Ok((parsed, rest)) => tell_parsed(lines, &parsed, rest),
        Err(_) => lines.add("refused\n"),
    }
}

// What a text is read as, with the height that it may have.
fn tell_tree(alloc: Global, lines: &mut Lines, source: &str, room: u8) {
    write!(lines, "tree {source} within {room}: ");
    match lex(alloc, source.as_bytes()) {
        Ok(tokens) => tell_tokens(alloc, lines, tokens.as_slice(), room),
        Err(_) => lines.add("no tokens\n"),
    }
}

// Texts, and the height that the expression of each may have.
const SOURCES: [(&str, u8); 18] = [
    ("1 - 2 - 3", 128),
    ("a || b && c | d ^ e & f == g < h + i * !j", 128),
    ("a * b + c < d == e & f ^ g | h && i || j", 128),
    ("a / b % c * d", 128),
    ("a <= b >= c > d", 128),
    ("a != b == c", 128),
    ("!a[i] * (uint)b", 128),
    ("(bool)(uint64)(a)", 128),
    ("f(a, g(), true)", 128),
    ("publish(\"x\", declassify(argument(\"y\")))", 128),
    ("(a)[1] + 0x10", 128),
    ("a[1][2]", 128),
    ("f()()", 128),
    ("a = b", 128),
    ("false 2", 128),
    ("((1))", 3),
    ("f()", 1),
    ("argument(\"x\")", 1),
];

/// The lines of expressions as the grammar has them.
pub fn tell(alloc: Global, lines: &mut Lines) {
    for (source, room) in SOURCES {
        tell_tree(alloc, lines, source, room);
    }
}
