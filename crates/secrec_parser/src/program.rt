// Programs.

ghost use Rattle.std.specs.Prelude.{◌≡◌, [], length, map};
ghost use Rattle.program_trees.specs.Programs.{item_tree, program_tree};
ghost use Rattle.secrec_parser.specs.inner.Steps.{at_end, domain_item, item, item_step, listed, named, program};
ghost use Rattle.expression_parser.specs.Given.{Gives};
ghost use Rattle.secrec_parser.specs.inner.Given.{Takes};

use crate::function::function;
use crate::tokens::{at_end, place_at};
use expression_parser::{ParseProblem, Read, Stopped, closed, expect, identifier};
use program_trees::{Identifier, Item, Program};
use secrec_lexer::{Sign, Token};
use std::alloc::Global;

/// A name and a semicolon.
fn named<'a>(alloc: Global, tokens: &'a [Token]) -> Read<'a, Identifier>
    ensures { Takes (λ x. (x.0, x.1.now)) result (named tokens.now) (length tokens.now) }
{
    let (name, rest) = identifier(alloc, tokens)?;
    closed(name, expect(Sign::Semicolon, rest))
}

/// A domain and its kind, after the keyword.
#[tactic(auto, unfolding(crate::specs::inner::Steps::domain_item))]
fn domain<'a>(alloc: Global, tokens: &'a [Token]) -> Read<'a, Item>
    ensures { Takes (λ x. (item_tree x.0, x.1.now)) result (domain_item tokens.now) (length tokens.now) }
{
    let (domain, rest) = identifier(alloc, tokens)?;
    let (kind, rest) = identifier(alloc, rest)?;
    closed(Item::Domain(domain, kind), expect(Sign::Semicolon, rest))
}

/// A part of a program; `max_height` is the greatest height of the statements of functions.
#[tactic(auto, unfolding(crate::specs::inner::Steps::item))]
fn item<'a>(alloc: Global, tokens: &'a [Token], max_height: u8) -> Read<'a, Item>
    ensures { Takes (λ x. (item_tree x.0, x.1.now)) result (item max_height tokens.now) (length tokens.now) }
{
    let Some((token, rest)) = tokens.split_first() else {
        return Err(Stopped::At(ParseProblem::Unexpected, tokens));
    };
    if token.is(Sign::Import) {
        let (name, rest) = named(alloc, rest)?;
        Ok((Item::Import(name), rest))
    } else if token.is(Sign::Kind) {
        let (name, rest) = named(alloc, rest)?;
        Ok((Item::Kind(name), rest))
    } else if token.is(Sign::Domain) {
        domain(alloc, rest)
    } else {
        let (found, rest) = function(alloc, tokens, max_height)?;
        Ok((Item::Function(found), rest))
    }
}

fn items<'a>(alloc: Global, tokens: &'a [Token], max_height: u8) -> Read<'a, Vec<Item>>
    ensures step { Gives (λ x. (map item_tree x.0.items, x.1.now)) result (listed (λ found w. at_end w) (item max_height) [] tokens.now) }
{
    let mut found = Vec::new(alloc);
    let mut rest = tokens;
    while !at_end(rest) {
        let (next, behind) = item(alloc, rest, max_height)?;
        found.push(next)?;
        rest = behind;
    }
    Ok((found, rest))
}

/// A whole program, up to the end of the text; `max_height` is the greatest height of the statements of functions.
#[tactic(auto, unfolding(crate::specs::inner::Steps::program))]
pub fn program<'a>(alloc: Global, tokens: &'a [Token], max_height: u8) -> Read<'a, Program>
    ensures step { Gives (λ x. (program_tree x.0, x.1.now)) result (program max_height tokens.now) }
{
    let (items, rest) = items(alloc, tokens, max_height)?;
    let (end, rest) = place_at(rest)?;
    Ok((Program { items, end }, rest))
}
