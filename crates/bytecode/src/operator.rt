// The bytes of operators: each is that of the operator's sign.
ghost use Rattle.std.specs.Prelude.{◌≡◌, ◌<◌};
ghost use Rattle.bytecode.specs.InMemory.{operator_byte};

use program_trees::OperatorSign;

/// The byte of a sign.
pub(crate) fn byte_of(sign: OperatorSign) -> u8
    ensures { result ≡ operator_byte sign }
{
    match sign {
        OperatorSign::Add => 0,
        OperatorSign::Subtract => 1,
        OperatorSign::Multiply => 2,
        OperatorSign::Divide => 3,
        OperatorSign::Remainder => 4,
        OperatorSign::Equal => 5,
        OperatorSign::NotEqual => 6,
        OperatorSign::Less => 7,
        OperatorSign::LessOrEqual => 8,
        OperatorSign::Greater => 9,
        OperatorSign::GreaterOrEqual => 10,
        OperatorSign::And => 11,
        OperatorSign::Or => 12,
        OperatorSign::Xor => 13,
    }
}

/// The sign of a byte that is an operator's.
pub(crate) fn sign_of(byte: u8) -> OperatorSign
    requires { byte < 14 }
    ensures { operator_byte result ≡ byte }
{
    match byte {
        0 => OperatorSign::Add,
        1 => OperatorSign::Subtract,
        2 => OperatorSign::Multiply,
        3 => OperatorSign::Divide,
        4 => OperatorSign::Remainder,
        5 => OperatorSign::Equal,
        6 => OperatorSign::NotEqual,
        7 => OperatorSign::Less,
        8 => OperatorSign::LessOrEqual,
        9 => OperatorSign::Greater,
        10 => OperatorSign::GreaterOrEqual,
        11 => OperatorSign::And,
        12 => OperatorSign::Or,
        _ => OperatorSign::Xor,
    }
}
