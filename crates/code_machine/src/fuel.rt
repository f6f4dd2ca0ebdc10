// How many steps code can have.
ghost use Rattle.std.specs.Prelude.{◌≡◌, ◌<◌, ◌^◌};
ghost use Rattle.verified_code.specs.Settled.{settled};
ghost use Rattle.named_values.specs.Meaning.{fuel, longest};

use verified_code::Verified;

/// How many steps the longest function has.
fn longest(code: &Verified) -> usize
    ensures exactly { result ≡ longest (settled code.now) }
    ensures small { result < 2 ^ 63 }
{
    let mut most = 0;
    for function in &code.code().functions {
        most = most.max(function.body.as_slice().len());
    }
    most
}

/// How many steps code can have with this budget, where its jumps go forward.
pub fn most_steps(code: &Verified, budget: u64) -> u128
    ensures { result ≡ fuel (settled code.now) budget }
{
    let longest = longest(code) as u128;
    (budget as u128) * (longest + 1) + longest + 1
}
