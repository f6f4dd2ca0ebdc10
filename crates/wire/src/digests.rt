// The two digests of a hello.
ghost use Rattle.std.specs.Prelude.{◌≡◌, IfOk, string_bytes};
ghost use Rattle.sha2.specs.Sha256.{sha256};
ghost use Rattle.wire.specs.Digests.{budget_line, public_text};

use sha2::{Digest, Sha256};
use std::alloc::{AllocError, Global};

/// The digest of the code that a miner runs: SHA-256 (FIPS 180-4) of the bytes of the code file.
pub fn code_digest(code: &[u8]) -> [u8; 32]
    ensures { result ≡ sha256 code.now }
{
    Sha256::digest(code)
}

/// The budget and the lengths of the tapes of the dealer and of miners 1, 2 and 3, in decimal.
#[tactic(auto, unfolding(crate::specs::Digests::budget_line))]
fn budget_line(
    alloc: Global,
    budget: u64,
    dealer: u64,
    one: u64,
    two: u64,
    three: u64,
) -> Result<String, AllocError>
    ensures { IfOk result (λ text. string_bytes text ≡ budget_line budget dealer one two three) }
{
    format!(in alloc; "budget {budget} lens {dealer} {one} {two} {three}")
}

/// The digest of what everybody knows of a run: SHA-256 (FIPS 180-4) of the text of the public file, a newline, and `budget N lens A B C D`
/// with the budget and the lengths of the tapes of the dealer and of miners 1, 2 and 3, in decimal, with no newline at the end.
#[tactic(auto, unfolding(crate::specs::Digests::public_text))]
pub fn public_digest(
    alloc: Global,
    public: &[u8],
    budget: u64,
    lens: &[u64; 4],
) -> Result<[u8; 32], AllocError>
    ensures { IfOk result (λ digest. digest ≡ sha256 (public_text public.now budget lens.now)) }
{
    let line = budget_line(alloc, budget, lens[0], lens[1], lens[2], lens[3])?;
    let mut hasher = Sha256::new();
    hasher.update(public);
    hasher.update("\n");
    hasher.update(line.as_str());
    Ok(hasher.finalize())
}
