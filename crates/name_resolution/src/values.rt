// Expressions that give values, and calls.
ghost use Rattle.std.specs.Prelude.{◌≡◌, true, false, IfOk, Some, map, option_map};
ghost use Rattle.program_trees.specs.Tree.{expression, trees_of};
ghost use Rattle.program_trees.specs.Programs.{function_tree};
ghost use Rattle.declarations.specs.Declarations.{defined, callee};
ghost use Rattle.declarations.specs.Views.{declared};
ghost use Rattle.program_trees.specs.TypedTree.{typed_tree};
ghost use Rattle.name_resolution.specs.Scopes.{variable_named, shape_written};
ghost use Rattle.program_trees.specs.Operators.{operands_of, may_cut_short};
ghost use Rattle.name_resolution.specs.Values.{made, of_both, only, pair, variable_value, element_value, negated, cast_value, declassified_value};
ghost use Rattle.name_resolution.specs.Values.{operation_node, operation, shape_returned, tree_of_value, looked_up, built_in_value, called, value, values};
ghost use Rattle.name_resolution.specs.Values.{call_made};
ghost use Rattle.name_resolution.specs.Answer.{Answers};
ghost use Rattle.name_resolution.specs.inner.Views.{valued, operand_seen, values_seen, pair_seen, call_seen};

use crate::choosing::{may_cut_short, operator_on};
use crate::resolve_err::ResolveErr;
use crate::variables::Variables;
use declarations::{BuiltIn, Called, Declarations};
use program_trees::{
    BinaryOperator, Cast, DataType, DeclaredType, Expression, Function, Operands, Operator,
    ResultType, Shape, TypedExpression,
};
use std::alloc::{AllocError, Global};

/// An expression that gives a value, and the shape of the value.
#[derive(Drop)]
pub struct Valued {
    pub tree: TypedExpression,
    pub shape: Shape,
}

/// A call, and the shape of what it gives back, if it does.
#[derive(Drop)]
pub struct CallMade {
    pub tree: TypedExpression,
    pub gives: Option<Shape>,
}

/// An operand: an expression that gives a value, in a box, and the shape of the value.
#[derive(Drop)]
pub struct OperandMade {
    pub tree: Box<TypedExpression>,
    pub shape: Shape,
}

fn boxed(alloc: Global, value: Valued) -> Result<OperandMade, ResolveErr>
    ensures { Answers operand_seen result (Some (valued value)) }
{
    let shape = value.shape;
    let tree = Box::new(alloc, value.tree)?;
    Ok(OperandMade { tree, shape })
}

fn scalar(tree: TypedExpression, element: DataType) -> Valued
    ensures { valued result ≡ made (typed_tree tree) element false }
{
    Valued {
        tree,
        shape: Shape {
            element,
            array: false,
        },
    }
}

fn variable<'p>(variables: &Variables<'p>, name: &'p str) -> Result<Valued, ResolveErr>
    ensures { Answers valued result (option_map variable_value (variable_named variables.now name.now)) }
{
    match variables.find(name) {
        Some(known) => Ok(Valued {
            tree: TypedExpression::Variable(known.slot),
            shape: known.shape,
        }),
        None => Err(ResolveErr::Unresolved),
    }
}

fn element(line: u32, array: OperandMade, position: OperandMade) -> Valued
    ensures { Some (valued result) ≡ element_value line (operand_seen array) (operand_seen position) }
{
    let element = array.shape.element;
    scalar(
        TypedExpression::Element(line, array.tree, position.tree),
        element,
    )
}

fn negated(operand: OperandMade) -> Valued
    ensures { valued result ≡ negated (operand_seen operand) }
{
    Valued {
        tree: TypedExpression::Not(operand.tree),
        shape: operand.shape,
    }
}

fn cast(element: DataType, operand: OperandMade) -> Valued
    ensures { valued result ≡ cast_value element (operand_seen operand) }
{
    let shape = operand.shape;
    let cast = Cast::between(shape.element, element);
    Valued {
        tree: TypedExpression::Cast(cast, operand.tree),
        shape: Shape {
            element,
            array: shape.array,
        },
    }
}

fn declassified(operand: OperandMade) -> Valued
    ensures { valued result ≡ declassified_value (operand_seen operand) }
{
    Valued {
        tree: TypedExpression::Declassify(operand.tree),
        shape: operand.shape,
    }
}

// The node of an operator between two operands.
fn operation_node(
    line: u32,
    sign: Operator,
    operator: BinaryOperator,
    left: OperandMade,
    right: OperandMade,
) -> TypedExpression
    ensures { typed_tree result ≡ operation_node line operator (operand_seen left) (operand_seen right)
        (may_cut_short sign (operands_of left.shape.array right.shape.array)) }
{
    let operands = Operands::of(left.shape.array, right.shape.array);
    match may_cut_short(sign, operands) {
        Some(connective) => TypedExpression::CutShort(connective, left.tree, right.tree),
        None => TypedExpression::Binary(line, operator, operands, left.tree, right.tree),
    }
}

fn operation(
    line: u32,
    sign: Operator,
    left: OperandMade,
    right: OperandMade,
) -> Result<Valued, ResolveErr>
    ensures { Answers valued result (operation line sign (operand_seen left) (operand_seen right)) }
{
    match operator_on(sign, left.shape.element, right.shape.element) {
        None => Err(ResolveErr::Unresolved),
        Some(operator) => {
            let shape = Shape {
                element: operator.result(),
                array: left.shape.array || right.shape.array,
            };
            let tree = operation_node(line, sign, operator, left, right);
            Ok(Valued { tree, shape })
        }
    }
}

/// What is written, whoever may see it.
pub fn shape_written(declared: &DeclaredType) -> Shape
    ensures { result ≡ shape_written declared.now }
{
    Shape {
        element: declared.element,
        array: declared.array,
    }
}

fn shape_returned(returned: &ResultType) -> Option<Shape>
    ensures { result ≡ shape_returned returned.now }
{
    match returned {
        ResultType::Void => None,
        ResultType::Value(declared) => Some(shape_written(declared)),
    }
}

// The one value.
fn only(alloc: Global, values: Vec<Valued>) -> Result<OperandMade, ResolveErr>
    ensures { Answers operand_seen result (only (map valued values.items)) }
{
    let mut values = values;
    match values.pop() {
        Some(value) => if values.is_empty() {
            boxed(alloc, value)
        } else {
            Err(ResolveErr::Unresolved)
        },
        None => Err(ResolveErr::Unresolved),
    }
}

// The two values.
fn pair(alloc: Global, values: Vec<Valued>) -> Result<(OperandMade, OperandMade), ResolveErr>
    ensures { Answers pair_seen result (pair (map valued values.items)) }
{
    let mut values = values;
    match values.pop() {
        Some(second) => {
            let first = only(alloc, values)?;
            let second = boxed(alloc, second)?;
            Ok((first, second))
        }
        None => Err(ResolveErr::Unresolved),
    }
}

// The elements of an array at an index, or at each of an array of indices.
fn looked_up(line: u32, array: OperandMade, index: OperandMade) -> Valued
    ensures { valued result ≡ looked_up line (operand_seen array) (operand_seen index) }
{
    let shape = Shape {
        element: array.shape.element,
        array: index.shape.array,
    };
    Valued {
        tree: TypedExpression::Lookup(line, array.tree, index.tree),
        shape,
    }
}

fn built_in(
    alloc: Global,
    line: u32,
    function: BuiltIn,
    arguments: Vec<Valued>,
) -> Result<Valued, ResolveErr>
    ensures { Answers valued result (built_in_value line function (map valued arguments.items)) }
{
    match function {
        BuiltIn::Size => {
            let array = only(alloc, arguments)?;
            Ok(scalar(TypedExpression::Size(array.tree), DataType::Uint64))
        }
        BuiltIn::Cat => {
            let (first, second) = pair(alloc, arguments)?;
            let element = first.shape.element;
            Ok(array(TypedExpression::Cat(line, first.tree, second.tree), element))
        }
        BuiltIn::Sum => {
            let array = only(alloc, arguments)?;
            let element = array.shape.element;
            Ok(scalar(TypedExpression::Sum(array.tree), element))
        }
        BuiltIn::BitExtract => {
            let words = only(alloc, arguments)?;
            Ok(array(
                TypedExpression::BitExtract(line, words.tree),
                DataType::Bool,
            ))
        }
        BuiltIn::Lookup => {
            let (array, index) = pair(alloc, arguments)?;
            Ok(looked_up(line, array, index))
        }
    }
}

fn array(tree: TypedExpression, element: DataType) -> Valued
    ensures { valued result ≡ made (typed_tree tree) element true }
{
    Valued {
        tree,
        shape: Shape {
            element,
            array: true,
        },
    }
}

#[tactic(auto, using(crate::proofs::Growing::map_one))]
fn trees(alloc: Global, values: Vec<Valued>) -> Result<Vec<TypedExpression>, AllocError>
    ensures { IfOk result (λ ts. map typed_tree ts.items ≡ map tree_of_value (map valued values.items)) }
{
    let mut trees = Vec::new(alloc);
    for value in values {
        trees.push(value.tree)?;
    }
    Ok(trees)
}

// A call of the function of this number.
fn defined_call(
    alloc: Global,
    line: u32,
    number: usize,
    function: &Function,
    arguments: Vec<Valued>,
) -> Result<CallMade, ResolveErr>
    ensures { Answers call_seen result (called line (defined number (function_tree function.now)) (map valued arguments.items)) }
{
    if function.parameters.len() != arguments.len() {
        return Err(ResolveErr::Unresolved);
    }
    let trees = trees(alloc, arguments)?;
    Ok(CallMade {
        tree: TypedExpression::Call(line, number, trees),
        gives: shape_returned(&function.result),
    })
}

fn called<'p>(
    alloc: Global,
    declarations: &Declarations<'p>,
    line: u32,
    name: &'p str,
    arguments: Vec<Valued>,
) -> Result<CallMade, ResolveErr>
    ensures { Answers call_seen result (of_both (called line) (callee (declared declarations.now) name.now) (Some (map valued arguments.items))) }
{
    match declarations.callee(name) {
        None => Err(ResolveErr::Unresolved),
        Some(Called::BuiltIn(function)) => {
            let value = built_in(alloc, line, function, arguments)?;
            Ok(CallMade {
                tree: value.tree,
                gives: Some(value.shape),
            })
        }
        Some(Called::Defined(number, function)) => {
            defined_call(alloc, line, number, function, arguments)
        }
    }
}

/// An expression that gives a value.
#[cycle(values)]
pub fn value<'p>(
    alloc: Global,
    declarations: &Declarations<'p>,
    variables: &Variables<'p>,
    e: &'p Expression,
) -> Result<Valued, ResolveErr>
    ensures { Answers valued result (value (declared declarations.now) variables.now (expression e.now)) }
{
    match e {
        Expression::Number(_, word) => {
            Ok(scalar(TypedExpression::Word(*word), DataType::Uint64))
        }
        Expression::Truth(_, truth) => Ok(scalar(TypedExpression::Truth(*truth), DataType::Bool)),
        Expression::Variable(_, name) => variable(variables, name.as_str()),
        Expression::Call(place, name, arguments) => {
            let made = call(
                alloc,
                declarations,
                variables,
                place.line,
                name.as_str(),
                arguments,
            )?;
            match made.gives {
                Some(shape) => Ok(Valued {
                    tree: made.tree,
                    shape,
                }),
                None => Err(ResolveErr::Unresolved),
            }
        }
        Expression::Index(place, array, position) => {
            let array = operand(alloc, declarations, variables, array)?;
            let position = operand(alloc, declarations, variables, position)?;
            Ok(element(place.line, array, position))
        }
        Expression::Parentheses(_, inner) => value(alloc, declarations, variables, inner),
        Expression::Not(_, inner) => {
            let operand = operand(alloc, declarations, variables, inner)?;
            Ok(negated(operand))
        }
        Expression::Cast(_, element, inner) => {
            let operand = operand(alloc, declarations, variables, inner)?;
            Ok(cast(*element, operand))
        }
        Expression::Binary(place, sign, left, right) => {
            let left = operand(alloc, declarations, variables, left)?;
            let right = operand(alloc, declarations, variables, right)?;
            operation(place.line, *sign, left, right)
        }
        Expression::Declassify(_, inner) => {
            let operand = operand(alloc, declarations, variables, inner)?;
            Ok(declassified(operand))
        }
        Expression::Argument(_, _) | Expression::Publish(_, _, _) => Err(ResolveErr::Unresolved),
    }
}

// An operand.
#[cycle(values)]
fn operand<'p>(
    alloc: Global,
    declarations: &Declarations<'p>,
    variables: &Variables<'p>,
    e: &'p Expression,
) -> Result<OperandMade, ResolveErr>
    ensures { Answers operand_seen result (value (declared declarations.now) variables.now (expression e.now)) }
{
    let value = value(alloc, declarations, variables, e)?;
    boxed(alloc, value)
}

// The arguments of a call.
#[cycle(values)]
fn values<'p>(
    alloc: Global,
    declarations: &Declarations<'p>,
    variables: &Variables<'p>,
    list: &'p Vec<Expression>,
) -> Result<Vec<Valued>, ResolveErr>
    ensures { Answers values_seen result (values (declared declarations.now) variables.now (trees_of (map expression list.now.items))) }
{
    let mut found = Vec::new(alloc);
    for each in list {
        let value = value(alloc, declarations, variables, each)?;
        found.push(value)?;
    }
    Ok(found)
}

/// A call of a name at this line.
#[cycle(values)]
pub fn call<'p>(
    alloc: Global,
    declarations: &Declarations<'p>,
    variables: &Variables<'p>,
    line: u32,
    name: &'p str,
    arguments: &'p Vec<Expression>,
) -> Result<CallMade, ResolveErr>
    ensures { Answers call_seen result (call_made (declared declarations.now) variables.now line name.now (trees_of (map expression arguments.now.items))) }
{
    let values = values(alloc, declarations, variables, arguments)?;
    called(alloc, declarations, line, name, values)
}
