// Functions.

ghost use Rattle.std.specs.Prelude.{◌≡◌, ◌+◌, [], ◌∷◌, length, map};
ghost use Rattle.program_trees.specs.Programs.{block_tree, function_tree};
ghost use Rattle.secrec_parser.specs.inner.Steps.{body, comma_then, constraint, domain_variable, function_step, listed, no_comma, no_more_variables};
ghost use Rattle.secrec_parser.specs.inner.Steps.{parameter, parameter_list, parameters, result_type, template};
ghost use Rattle.secrec_parser.specs.inner.Given.{Takes};

use crate::statement::braced;
use crate::tokens::at_sign;
use crate::types::declared_type;
use expression_parser::{Read, closed, expect, identifier};
use program_trees::{Block, DomainVariable, Function, Identifier, Parameter, ResultType};
use secrec_lexer::{Sign, Token};
use std::alloc::Global;

/// How many domain variables a template has at most.
const MOST_VARIABLES: usize = 4;

/// The kind that a domain variable is bound to a domain of, if there is one.
fn constraint<'a>(alloc: Global, tokens: &'a [Token]) -> Read<'a, Option<Identifier>>
    ensures { Takes (λ x. (x.0, x.1.now)) result (constraint tokens.now) (length tokens.now + 1) }
{
    if !at_sign(Sign::Colon, tokens) {
        return Ok((None, tokens));
    }
    let (_, rest) = expect(Sign::Colon, tokens)?;
    let (kind, rest) = identifier(alloc, rest)?;
    Ok((Some(kind), rest))
}

#[tactic(auto, unfolding(crate::specs::inner::Steps::domain_variable))]
fn domain_variable<'a>(alloc: Global, tokens: &'a [Token]) -> Read<'a, DomainVariable>
    ensures { Takes (λ x. (x.0, x.1.now)) result (domain_variable tokens.now) (length tokens.now) }
{
    let (_, rest) = expect(Sign::Domain, tokens)?;
    let (variable, rest) = identifier(alloc, rest)?;
    let (kind, rest) = constraint(alloc, rest)?;
    Ok((DomainVariable { variable, kind }, rest))
}

/// The domain variables of a template after the first, which is given.
fn more_variables<'a>(
    alloc: Global,
    first: DomainVariable,
    tokens: &'a [Token],
) -> Read<'a, Vec<DomainVariable>>
    ensures { Takes (λ x. (x.0.items, x.1.now)) result (listed no_more_variables (comma_then domain_variable) (first ∷ []) tokens.now) (length tokens.now + 1) }
{
    let mut found = Vec::new(alloc);
    found.push(first)?;
    let mut rest = tokens;
    while at_sign(Sign::Comma, rest) && found.len() < MOST_VARIABLES {
        let (_, behind) = expect(Sign::Comma, rest)?;
        let (next, behind) = domain_variable(alloc, behind)?;
        found.push(next)?;
        rest = behind;
    }
    Ok((found, rest))
}

/// The domain variables of a function; none where it is no template.
#[tactic(auto, unfolding(crate::specs::inner::Steps::template))]
fn template<'a>(alloc: Global, tokens: &'a [Token]) -> Read<'a, Vec<DomainVariable>>
    ensures { Takes (λ x. (x.0.items, x.1.now)) result (template tokens.now) (length tokens.now + 1) }
{
    if !at_sign(Sign::Template, tokens) {
        return Ok((Vec::new(alloc), tokens));
    }
    let (_, rest) = expect(Sign::Template, tokens)?;
    let (_, rest) = expect(Sign::Less, rest)?;
    let (first, rest) = domain_variable(alloc, rest)?;
    let (variables, rest) = more_variables(alloc, first, rest)?;
    closed(variables, expect(Sign::Greater, rest))
}

#[tactic(auto, unfolding(crate::specs::inner::Steps::result_type))]
fn result_type<'a>(alloc: Global, tokens: &'a [Token]) -> Read<'a, ResultType>
    ensures { Takes (λ x. (x.0, x.1.now)) result (result_type tokens.now) (length tokens.now) }
{
    if at_sign(Sign::Void, tokens) {
        let (_, rest) = expect(Sign::Void, tokens)?;
        Ok((ResultType::Void, rest))
    } else {
        let (declared, rest) = declared_type(alloc, tokens)?;
        Ok((ResultType::Value(declared), rest))
    }
}

#[tactic(auto, unfolding(crate::specs::inner::Steps::parameter))]
fn parameter<'a>(alloc: Global, tokens: &'a [Token]) -> Read<'a, Parameter>
    ensures { Takes (λ x. (x.0, x.1.now)) result (parameter tokens.now) (length tokens.now) }
{
    let (declared, rest) = declared_type(alloc, tokens)?;
    let (variable, rest) = identifier(alloc, rest)?;
    Ok((Parameter { declared, variable }, rest))
}

/// The parameters of a function after the first, which is given.
fn more_parameters<'a>(
    alloc: Global,
    first: Parameter,
    tokens: &'a [Token],
) -> Read<'a, Vec<Parameter>>
    ensures { Takes (λ x. (x.0.items, x.1.now)) result (listed no_comma (comma_then parameter) (first ∷ []) tokens.now) (length tokens.now + 1) }
{
    let mut found = Vec::new(alloc);
    found.push(first)?;
    let mut rest = tokens;
    while at_sign(Sign::Comma, rest) {
        let (_, behind) = expect(Sign::Comma, rest)?;
        let (next, behind) = parameter(alloc, behind)?;
        found.push(next)?;
        rest = behind;
    }
    Ok((found, rest))
}

#[tactic(auto, unfolding(crate::specs::inner::Steps::parameters))]
fn parameters<'a>(alloc: Global, tokens: &'a [Token]) -> Read<'a, Vec<Parameter>>
    ensures { Takes (λ x. (x.0.items, x.1.now)) result (parameters tokens.now) (length tokens.now + 1) }
{
    if at_sign(Sign::RightParenthesis, tokens) {
        return Ok((Vec::new(alloc), tokens));
    }
    let (first, rest) = parameter(alloc, tokens)?;
    more_parameters(alloc, first, rest)
}

/// The parameters of a function, in their parentheses.
#[tactic(auto, unfolding(crate::specs::inner::Steps::parameter_list))]
fn parameter_list<'a>(alloc: Global, tokens: &'a [Token]) -> Read<'a, Vec<Parameter>>
    ensures { Takes (λ x. (x.0.items, x.1.now)) result (parameter_list tokens.now) (length tokens.now) }
{
    let (_, rest) = expect(Sign::LeftParenthesis, tokens)?;
    let (found, rest) = parameters(alloc, rest)?;
    closed(found, expect(Sign::RightParenthesis, rest))
}

/// A function's body; `max_height` is the greatest height of its statements.
#[tactic(auto, unfolding(crate::specs::inner::Steps::body))]
fn body<'a>(alloc: Global, tokens: &'a [Token], max_height: u8) -> Read<'a, Block>
    ensures { Takes (λ x. (block_tree x.0, x.1.now)) result (body max_height tokens.now) (length tokens.now) }
{
    let (place, rest) = expect(Sign::LeftBrace, tokens)?;
    let (statements, rest) = braced(alloc, rest, max_height, false)?;
    Ok((Block { place, statements }, rest))
}

/// A function, whose body has statements of at most this height.
#[tactic(auto, unfolding(crate::specs::inner::Steps::function_step))]
pub fn function<'a>(alloc: Global, tokens: &'a [Token], max_height: u8) -> Read<'a, Function>
    ensures { Takes (λ x. (function_tree x.0, x.1.now)) result (function_step max_height tokens.now) (length tokens.now) }
{
    let (variables, rest) = template(alloc, tokens)?;
    let (result, rest) = result_type(alloc, rest)?;
    let (function, rest) = identifier(alloc, rest)?;
    let (parameters, rest) = parameter_list(alloc, rest)?;
    let (body, rest) = body(alloc, rest, max_height)?;
    let function = Function {
        variables,
        result,
        function,
        parameters,
        body,
    };
    Ok((function, rest))
}
