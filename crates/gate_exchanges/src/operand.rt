// The second operand of a gate.
ghost use Rattle.std.specs.Prelude.{◌≡◌};
ghost use Rattle.gate_exchanges.specs.Exchanged.{second_value};

use gates::Values;

/// The words of the second operand, none where there is no such operand.
pub fn second_value(values: &Values, number: Option<u64>) -> &[u64]
    ensures { result.now ≡ second_value values.now number }
{
    match number {
        Some(number) => values.value(number),
        None => &[],
    }
}
