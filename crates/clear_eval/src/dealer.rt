// The words that the dealer needs.
ghost use Rattle.std.specs.Prelude.{◌≡◌, ◌≤◌, map, sum};
ghost use Rattle.language_model.specs.Reports.{words_dealt};
ghost use Rattle.value_steps.specs.Views.{given_seen};

use value_steps::GivenInput;
use vector_ops::gate_size;

/// The words that the dealer needs for an input: two for each word that a private one has in the gates.
fn words_dealt(given: &GivenInput) -> u128
    ensures exact { result ≡ words_dealt (given_seen given.now) }
    ensures few { result ≤ 2097152 }
{
    if given.private {
        let size = gate_size(given.shape.element, given.words.len() as u64);
        2 * u128::from(size)
    } else {
        0
    }
}

/// The words that the dealer needs for all these inputs together.
pub fn dealing(inputs: &[GivenInput]) -> u128
    ensures { result ≡ sum (map words_dealt (map given_seen inputs.now)) }
{
    let mut need = 0;
    for given in inputs {
        need += words_dealt(given);
    }
    need
}
