// The random words of the miners' tapes.
ghost use Rattle.std.specs.Prelude.{◌≡◌, ◌+◌, ◌≤◌, IfOk};
ghost use Rattle.language_model.specs.Effects.{fits, draw, words_each};
ghost use Rattle.program_trees.specs.declared.operators.BinaryOperator.TheVariants.{Bools as OnBools};
ghost use Rattle.language_model.specs.Operations.{words_for_equality, words_for_bits, words_for_order, words_for_conversion, words_for_lookup};
ghost use Rattle.language_model.specs.Operations.{words_on_numbers, words_of_operator, words_of_cast};
ghost use Rattle.value_steps.specs.Steps.{Does, itself, nothing};
ghost use Rattle.value_steps.specs.Views.{stage_seen, world_seen, drawn_seen};

use crate::halt::Halt;
use crate::stage::{Drawn, Stage};
use crate::world::World;
use program_trees::{BinaryOperator, BoolOperator, Cast, DataType, OperatorSign};
use sc_text::{Ending, TapeOwner};
use vector_ops::gate_size;

/// How many words of a tape are drawn after `more`. A tape that has fewer ends the run.
fn drawn_after(
    stage: &Stage<'_>,
    owner: TapeOwner,
    drawn: u64,
    more: u64,
    have: u64,
) -> Result<u64, Halt>
    ensures step { Does nothing (fits owner (drawn + more) have) (stage_seen stage.now) result (stage_seen stage.now) }
    ensures sum { IfOk result (λ n. n ≡ drawn + more) }
{
    let need = u128::from(drawn) + u128::from(more);
    if need <= u128::from(have) {
        Ok(need as u64)
    } else {
        Err(Halt::Ended(Ending::Tape { owner, need, have }))
    }
}

/// Draws so many words more, where each miner's tape has them: the miners are asked one after another.
pub(crate) fn draw(world: &World<'_>, stage: &mut Stage<'_>, words: Drawn) -> Result<(), Halt>
    ensures step { Does itself (draw (world_seen world.now) (drawn_seen words)) (stage_seen stage.old) result (stage_seen stage.new) }
    ensures spends { stage.new.left ≤ stage.old.left }
{
    let (drawn, have) = (stage.drawn, world.lengths);
    let first = drawn_after(
        stage,
        TapeOwner::Miner1,
        drawn.first,
        words.first,
        have.first,
    )?;
    let second = drawn_after(
        stage,
        TapeOwner::Miner2,
        drawn.second,
        words.second,
        have.second,
    )?;
    let third = drawn_after(
        stage,
        TapeOwner::Miner3,
        drawn.third,
        words.third,
        have.third,
    )?;
    stage.drawn = Drawn {
        first,
        second,
        third,
    };
    Ok(())
}

/// As many words of each tape.
pub(crate) fn words_each(n: u64) -> Drawn
    ensures { drawn_seen result ≡ words_each n }
{
    Drawn {
        first: n,
        second: n,
        third: n,
    }
}

/// The words to compare `n` numbers with 0.
fn words_for_equality(n: u64) -> Drawn
    requires { n ≤ 1048576 }
    ensures { drawn_seen result ≡ words_for_equality n }
{
    Drawn {
        first: 19 * n,
        second: 18 * n,
        third: 18 * n,
    }
}

/// The words to extract the bits of `n` numbers.
pub(crate) fn words_for_bits(n: u64) -> Drawn
    requires { n ≤ 1048576 }
    ensures { drawn_seen result ≡ words_for_bits n }
{
    Drawn {
        first: 40 * n,
        second: 39 * n,
        third: 39 * n,
    }
}

/// The words to tell which of two numbers is less, `n` times.
fn words_for_order(n: u64) -> Drawn
    requires { n ≤ 1048576 }
    ensures { drawn_seen result ≡ words_for_order n }
{
    Drawn {
        first: 119 * n,
        second: 117 * n,
        third: 117 * n,
    }
}

/// The words to turn `n` truth values into numbers.
fn words_for_conversion(n: u64) -> Drawn
    requires { n ≤ 1048576 }
    ensures { drawn_seen result ≡ words_for_conversion n }
{
    Drawn {
        first: 4 * n,
        second: n,
        third: n,
    }
}

/// The words to look up elements, where those of an array times the indices are `n`.
pub(crate) fn words_for_lookup(n: u64) -> Drawn
    requires { n ≤ 1048576 }
    ensures { drawn_seen result ≡ words_for_lookup n }
{
    Drawn {
        first: 26 * n,
        second: 22 * n,
        third: 22 * n,
    }
}

/// The words of an operator on `n` private numbers, with or without a sign; operators that have no private operands draw none.
fn words_on_numbers(op: OperatorSign, n: u64) -> Drawn
    requires { n ≤ 1048576 }
    ensures { drawn_seen result ≡ words_on_numbers op n }
{
    match op {
        OperatorSign::Multiply => words_each(3 * n),
        OperatorSign::Equal | OperatorSign::NotEqual => words_for_equality(n),
        OperatorSign::Less
        | OperatorSign::LessOrEqual
        | OperatorSign::Greater
        | OperatorSign::GreaterOrEqual => words_for_order(n),
        OperatorSign::Add
        | OperatorSign::Subtract
        | OperatorSign::Divide
        | OperatorSign::Remainder
        | OperatorSign::And
        | OperatorSign::Or
        | OperatorSign::Xor => words_each(0),
    }
}

/// The words of an operator on `n` private truth values.
fn words_of_bool_operator(op: BoolOperator, n: u64) -> Drawn
    requires { n ≤ 1048576 }
    ensures { drawn_seen result ≡ words_of_operator (OnBools op) n }
{
    match op {
        BoolOperator::And | BoolOperator::Or => words_each(3 * gate_size(DataType::Bool, n)),
        BoolOperator::Equal | BoolOperator::NotEqual | BoolOperator::Xor => words_each(0),
    }
}

/// The words of an operator on `n` private elements.
pub(crate) fn words_of_operator(op: BinaryOperator, n: u64) -> Drawn
    requires { n ≤ 1048576 }
    ensures { drawn_seen result ≡ words_of_operator op n }
{
    match op {
        BinaryOperator::Words(op) | BinaryOperator::Ints(op) => words_on_numbers(op, n),
        BinaryOperator::Bools(op) => words_of_bool_operator(op, n),
    }
}

/// The words of a cast of `n` private elements.
pub(crate) fn words_of_cast(cast: Cast, n: u64) -> Drawn
    requires { n ≤ 1048576 }
    ensures { drawn_seen result ≡ words_of_cast cast n }
{
    match (cast.given, cast.wanted) {
        (DataType::Uint64 | DataType::Int64, DataType::Bool) => words_for_equality(n),
        (DataType::Bool, DataType::Uint64 | DataType::Int64) => words_for_conversion(n),
        (DataType::Uint64 | DataType::Int64, DataType::Uint64 | DataType::Int64)
        | (DataType::Bool, DataType::Bool) => words_each(0),
    }
}
