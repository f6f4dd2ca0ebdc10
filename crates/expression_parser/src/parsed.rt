ghost use Rattle.std.specs.Prelude.{◌≡◌, ◌<◌, [], IfOk};
ghost use Rattle.expression_parser.specs.Given.{tree_of, tree_height, trees_height, Below, Joined, Element, Added};

use crate::{Read, Stopped};
use program_trees::{Expression, Operator};
use std::alloc::{AllocError, Global};

/// A tree, and how many nodes lie on its longest way down.
#[derive(Drop)]
pub struct Parsed {
    pub tree: Expression,
    pub height: u8,
}

/// Trees, and the height of the highest.
#[derive(Drop)]
pub struct ParsedTrees {
    pub trees: Vec<Expression>,
    pub height: u8,
}

/// A tree of one node.
pub fn leaf(tree: Expression) -> Parsed
    ensures { (result.tree ≡ tree) × (result.height ≡ 1) }
{
    Parsed { tree, height: 1 }
}

/// No trees.
pub fn no_trees(alloc: Global) -> ParsedTrees
    ensures { (result.trees.items ≡ []) × (result.height ≡ 0) }
{
    ParsedTrees {
        trees: Vec::new(alloc),
        height: 0,
    }
}

/// A tree that was read, in a box, and the height of a node above it.
pub fn below<'a>(alloc: Global, found: Read<'a, Parsed>) -> Read<'a, (Box<Expression>, u8)>
    requires { IfOk found (λ x. x.0.height < 255) }
    ensures { Below found.entry result }
{
    let (found, rest) = found?;
    let height = found.height + 1;
    Ok(((Box::new(alloc, found.tree)?, height), rest))
}

/// Each of two values in a box.
fn boxes<A: Drop, B: Drop>(
    alloc: Global,
    first: A,
    second: B,
) -> Result<(Box<A>, Box<B>), AllocError>
    ensures { IfOk result (λ x. (x.0.value ≡ first) × (x.1.value ≡ second)) }
{
    let first = Box::new(alloc, first)?;
    let second = Box::new(alloc, second)?;
    Ok((first, second))
}

/// Both operands under their operator.
pub fn binary<'a>(
    alloc: Global,
    operator: Operator,
    left: Parsed,
    right: Parsed,
) -> Result<Parsed, Stopped<'a>>
    requires left { (left.height ≡ tree_height left) × (left.height < 255) }
    requires right { (right.height ≡ tree_height right) × (right.height < 255) }
    ensures { Joined result operator left right }
{
    let height = left.height.max(right.height);
    let place = left.tree.place();
    let (first, second) = boxes(alloc, left.tree, right.tree)?;
    Ok(Parsed {
        tree: Expression::Binary(place, operator, first, second),
        height: height + 1,
    })
}

/// An element of an array.
pub fn element<'a>(alloc: Global, array: Parsed, position: Parsed) -> Result<Parsed, Stopped<'a>>
    requires array { (array.height ≡ tree_height array) × (array.height < 255) }
    requires position { (position.height ≡ tree_height position) × (position.height < 255) }
    ensures { Element result array position }
{
    let height = array.height.max(position.height);
    let place = array.tree.place();
    let (first, second) = boxes(alloc, array.tree, position.tree)?;
    Ok(Parsed {
        tree: Expression::Index(place, first, second),
        height: height + 1,
    })
}

/// One more tree at the end.
#[tactic(auto, using(crate::proofs::Turns::heights_more))]
pub fn added<'a>(found: ParsedTrees, next: Parsed) -> Result<ParsedTrees, Stopped<'a>>
    requires found { found.height ≡ trees_height found }
    requires next { next.height ≡ tree_height next }
    ensures { Added result found next }
{
    let height = found.height.max(next.height);
    let mut trees = found.trees;
    trees.push(next.tree)?;
    Ok(ParsedTrees { trees, height })
}
