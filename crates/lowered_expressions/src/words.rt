// Operators and operands, by what is known of them.
ghost use Rattle.std.specs.Prelude.{◌≡◌};
ghost use Rattle.language_model.specs.Words.{truth_word};
ghost use Rattle.code_model.specs.Expressions.{deciding, lacks, mixes};

use program_trees::{BinaryOperator, Connective};

/// Whether a public value stands where a private one is wanted.
pub fn lacks(wanted: bool, given: bool) -> bool
    ensures { result ≡ lacks wanted given }
{
    wanted && !given
}

/// Whether an operand is public beside a private one, and is classified for that.
pub fn mixes(operator: BinaryOperator, this: bool, other: bool) -> bool
    ensures { result ≡ mixes operator this other }
{
    !operator.is_product() && lacks(other, this)
}

/// What the left operand is that decides alone.
pub fn deciding(connective: Connective) -> bool
    ensures { result ≡ deciding connective }
{
    match connective {
        Connective::AndAlso => false,
        Connective::OrElse => true,
    }
}

/// The word of a truth value.
pub fn truth_word(truth: bool) -> u64
    ensures { result ≡ truth_word truth }
{
    if truth { 1 } else { 0 }
}
