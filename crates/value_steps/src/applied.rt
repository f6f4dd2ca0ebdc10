// An operator and its operands, side by side: a scalar meets every element of an array.
use crate::value::{Secrecy, Value};
use program_trees::{Operands, Operation, Shape};
use std::alloc::{AllocError, Global};

/// An operation between two values.
#[derive(Clone, Copy)]
pub struct Applied<'v> {
    pub operation: Operation,
    pub left: &'v Value,
    pub right: &'v Value,
}

impl Applied<'_> {
    ghost use Rattle.std.specs.Prelude.{◌≡◌, ◌≤◌, length, IfOk};
    ghost use Rattle.language_model.specs.Operations.{is_scalar_left, is_scalar_right, result_shape};
    ghost use Rattle.language_model.specs.Values.{visible_words};
    ghost use Rattle.language_model.specs.Words as W;
    ghost use Rattle.value_steps.specs.Views.{value_seen};

    /// How many elements the result has.
    pub(crate) fn result_size(&self) -> u64
        ensures size { result ≡ W.result_size self.now.operation.operands (value_seen self.now.left.now) (value_seen self.now.right.now) }
        ensures bounded { result ≤ 1048576 }
    {
        match self.operation.operands {
            Operands::Scalars => 1,
            Operands::ArrayAndScalar | Operands::Arrays => self.left.size(),
            Operands::ScalarAndArray => self.right.size(),
        }
    }

    /// Whether the operands fit each other: two arrays have the same size.
    pub(crate) fn are_alike(&self) -> bool
        ensures { result ≡ W.are_alike self.now.operation.operands (value_seen self.now.left.now) (value_seen self.now.right.now) }
    {
        match self.operation.operands {
            Operands::Arrays => self.left.size() == self.right.size(),
            Operands::Scalars | Operands::ArrayAndScalar | Operands::ScalarAndArray => true,
        }
    }

    /// Whether no public divisor is 0.
    pub(crate) fn may_divide(&self) -> bool
        ensures { result ≡ W.may_divide self.now.operation.operator (visible_words (value_seen self.now.right.now)) }
    {
        match self.right.secrecy {
            Secrecy::Plain => vector_ops::may_divide(self.operation.operator, &self.right.words),
            Secrecy::Private(_) => vector_ops::may_divide(self.operation.operator, &[]),
        }
    }

    /// Whether the left operand is a scalar beside an array.
    pub(crate) fn is_scalar_left(&self) -> bool
        ensures { result ≡ is_scalar_left self.now.operation.operands }
    {
        match self.operation.operands {
            Operands::ScalarAndArray => true,
            Operands::Scalars | Operands::ArrayAndScalar | Operands::Arrays => false,
        }
    }

    /// Whether the right operand is a scalar beside an array.
    pub(crate) fn is_scalar_right(&self) -> bool
        ensures { result ≡ is_scalar_right self.now.operation.operands }
    {
        match self.operation.operands {
            Operands::ArrayAndScalar => true,
            Operands::Scalars | Operands::ScalarAndArray | Operands::Arrays => false,
        }
    }

    /// The left words, one for each element of the result.
    pub(crate) fn left_words(&self, alloc: Global) -> Result<Vec<u64>, AllocError>
        ensures { IfOk result (λ words. words.items
            ≡ W.left_words self.now.operation.operands (value_seen self.now.left.now) (value_seen self.now.right.now)) }
    {
        match self.operation.operands {
            Operands::ScalarAndArray => {
                vector_ops::repeated(alloc, self.right.words.len(), self.left.word())
            }
            Operands::Scalars | Operands::ArrayAndScalar | Operands::Arrays => {
                Vec::from_slice(alloc, &self.left.words)
            }
        }
    }

    /// The right words, one for each element of the result.
    pub(crate) fn right_words(&self, alloc: Global) -> Result<Vec<u64>, AllocError>
        ensures { IfOk result (λ words. words.items
            ≡ W.right_words self.now.operation.operands (value_seen self.now.left.now) (value_seen self.now.right.now)) }
    {
        match self.operation.operands {
            Operands::ArrayAndScalar => {
                vector_ops::repeated(alloc, self.left.words.len(), self.right.word())
            }
            Operands::Scalars | Operands::ScalarAndArray | Operands::Arrays => {
                Vec::from_slice(alloc, &self.right.words)
            }
        }
    }

    /// The words of the result.
    #[tactic(auto, using(crate::proofs::ResultSizes::length_each_two))]
    pub(crate) fn result_words(&self, alloc: Global) -> Result<Vec<u64>, AllocError>
        ensures words { IfOk result (λ words. words.items
            ≡ W.result_words self.now.operation.operator self.now.operation.operands (value_seen self.now.left.now) (value_seen self.now.right.now)) }
        ensures bounded { IfOk result (λ words. length words.items ≤ 1048576) }
    {
        let (op, left, right) = (self.operation.operator, self.left, self.right);
        match self.operation.operands {
            Operands::Scalars | Operands::Arrays => {
                vector_ops::each(alloc, op, &left.words, &right.words)
            }
            Operands::ArrayAndScalar => {
                vector_ops::each_and_scalar(alloc, op, &left.words, right.word())
            }
            Operands::ScalarAndArray => {
                vector_ops::scalar_and_each(alloc, op, left.word(), &right.words)
            }
        }
    }

    /// The shape of the result.
    pub(crate) fn result_shape(&self) -> Shape
        ensures { result ≡ result_shape self.now.operation.operator self.now.operation.operands }
    {
        self.operation
            .operator
            .result_shape(self.operation.operands)
    }
}
