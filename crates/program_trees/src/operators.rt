// Operators, casts, and what they give.
ghost use Rattle.std.specs.Prelude.{◌≡◌};
ghost use Rattle.program_trees.specs.declared.operators.BinaryOperator.TheVariants.{Bools};
ghost use Rattle.program_trees.specs.Operators.{number_result, on_bools, sign_of, element_made, result_shape, is_product, connective};
ghost use Rattle.program_trees.specs.Operators.{operands_of, cast_between, cast_shape};

use crate::expression::DataType;
use crate::kinds::Shape;

/// The sign of an operator: numbers without a sign have all of them, those with a sign all but the last three, and truth values five.
#[derive(Clone, Copy)]
pub enum OperatorSign {
    Add,
    Subtract,
    Multiply,
    Divide,
    Remainder,
    Equal,
    NotEqual,
    Less,
    LessOrEqual,
    Greater,
    GreaterOrEqual,
    And,
    Or,
    Xor,
}

/// An operator on truth values. It evaluates both operands.
#[derive(Clone, Copy)]
pub enum BoolOperator {
    Equal,
    NotEqual,
    And,
    Or,
    Xor,
}

/// An operator between two operands of one data type: that type, with a sign.
#[derive(Clone, Copy)]
pub enum BinaryOperator {
    Words(OperatorSign),
    /// On numbers with a sign. Types and code give it none of the signs that work bit by bit.
    Ints(OperatorSign),
    Bools(BoolOperator),
}

impl OperatorSign {
    /// The operator on truth values of the same sign, if there is one.
    pub fn on_bools(self) -> Option<BoolOperator>
        ensures { result ≡ on_bools self }
    {
        match self {
            OperatorSign::Equal => Some(BoolOperator::Equal),
            OperatorSign::NotEqual => Some(BoolOperator::NotEqual),
            OperatorSign::And => Some(BoolOperator::And),
            OperatorSign::Or => Some(BoolOperator::Or),
            OperatorSign::Xor => Some(BoolOperator::Xor),
            OperatorSign::Add
            | OperatorSign::Subtract
            | OperatorSign::Multiply
            | OperatorSign::Divide
            | OperatorSign::Remainder
            | OperatorSign::Less
            | OperatorSign::LessOrEqual
            | OperatorSign::Greater
            | OperatorSign::GreaterOrEqual => None,
        }
    }

    // The data type of what it gives on numbers of this one.
    fn result(self, number: DataType) -> DataType
        ensures { result ≡ number_result number self }
    {
        match self {
            OperatorSign::Equal
            | OperatorSign::NotEqual
            | OperatorSign::Less
            | OperatorSign::LessOrEqual
            | OperatorSign::Greater
            | OperatorSign::GreaterOrEqual => DataType::Bool,
            OperatorSign::Add
            | OperatorSign::Subtract
            | OperatorSign::Multiply
            | OperatorSign::Divide
            | OperatorSign::Remainder
            | OperatorSign::And
            | OperatorSign::Or
            | OperatorSign::Xor => number,
        }
    }
}

impl BoolOperator {
    // Its sign.
    fn sign(self) -> OperatorSign
        ensures { result ≡ sign_of (Bools self) }
    {
        match self {
            BoolOperator::Equal => OperatorSign::Equal,
            BoolOperator::NotEqual => OperatorSign::NotEqual,
            BoolOperator::And => OperatorSign::And,
            BoolOperator::Or => OperatorSign::Or,
            BoolOperator::Xor => OperatorSign::Xor,
        }
    }
}

impl BinaryOperator {
    /// Its sign.
    pub fn sign(self) -> OperatorSign
        ensures { result ≡ sign_of self }
    {
        match self {
            BinaryOperator::Words(operator) | BinaryOperator::Ints(operator) => operator,
            BinaryOperator::Bools(operator) => operator.sign(),
        }
    }

    /// The data type of what it gives.
    pub fn result(self) -> DataType
        ensures { result ≡ element_made self }
    {
        match self {
            BinaryOperator::Words(operator) => operator.result(DataType::Uint64),
            BinaryOperator::Ints(operator) => operator.result(DataType::Int64),
            BinaryOperator::Bools(_) => DataType::Bool,
        }
    }

    /// The shape of what it gives.
    pub fn result_shape(self, operands: Operands) -> Shape
        ensures { result ≡ result_shape self operands }
    {
        Shape {
            element: self.result(),
            array: !matches!(operands, Operands::Scalars),
        }
    }

    /// Whether it is a product: one with a public operand classifies nothing.
    pub fn is_product(self) -> bool
        ensures { result ≡ is_product self }
    {
        matches!(
            self,
            BinaryOperator::Words(OperatorSign::Multiply)
                | BinaryOperator::Ints(OperatorSign::Multiply)
                | BinaryOperator::Bools(BoolOperator::And)
        )
    }
}

/// `&&` or `||` between two scalars: where the left one is public it may decide alone.
#[derive(Clone, Copy)]
pub enum Connective {
    AndAlso,
    OrElse,
}

impl Connective {
    /// The operator that it is where both operands are evaluated.
    pub fn operator(self) -> BoolOperator
        ensures { result ≡ connective self }
    {
        match self {
            Connective::AndAlso => BoolOperator::And,
            Connective::OrElse => BoolOperator::Or,
        }
    }
}

/// Which of two operands are arrays.
#[derive(Clone, Copy)]
pub enum Operands {
    Scalars,
    ArrayAndScalar,
    ScalarAndArray,
    Arrays,
}

impl Operands {
    /// Which of a left and a right operand are arrays.
    pub fn of(left: bool, right: bool) -> Operands
        ensures { result ≡ operands_of left right }
    {
        match (left, right) {
            (false, false) => Operands::Scalars,
            (true, false) => Operands::ArrayAndScalar,
            (false, true) => Operands::ScalarAndArray,
            (true, true) => Operands::Arrays,
        }
    }
}

/// An operation between two operands: its operator, with the line of its construct, and which operands are arrays.
#[derive(Clone, Copy)]
pub struct Operation {
    pub line: u32,
    pub operator: BinaryOperator,
    pub operands: Operands,
}

/// A cast, by the data type of what it casts and the one that it makes.
#[derive(Clone, Copy)]
pub struct Cast {
    pub given: DataType,
    pub wanted: DataType,
}

impl Cast {
    /// The cast from one data type to another.
    pub fn between(given: DataType, wanted: DataType) -> Cast
        ensures { result ≡ cast_between given wanted }
    {
        Cast { given, wanted }
    }

    /// The shape of what it gives.
    pub fn shape(self, array: bool) -> Shape
        ensures { result ≡ cast_shape self array }
    {
        Shape {
            element: self.wanted,
            array,
        }
    }
}
