// Verified code of the first version.
ghost use Rattle.std.specs.Prelude.{◌≡◌, IfOk};
ghost use Rattle.verified_code.specs.Settled.{settled};
ghost use Rattle.verified_code.specs.Verified.{IsVerdict, IsVerified};
ghost use Rattle.first_version.specs.Laws.{KeepsMeaning};

use bytecode::Code;
use std::alloc::{AllocError, Global};
use std::marker::Model;
use verified_code::{Verified, VerifyErr, verify};

/// Code of the first version that is verified. Clauses see it as raw code.
pub struct VerifiedV1 {
    code: Verified,
}

// Written out, so that an early exit calls this once.
impl Drop for VerifiedV1 {
    fn drop(self) {
        let VerifiedV1 { code: _ } = self;
    }
}

impl Model for VerifiedV1 {
    ghost use Rattle.bytecode.specs.Raw.{RawCode};

    ghost Value = { RawCode };

    ghost view = { λ v. v.code };
}

/// Verifies code of the first version, which asked the same of code as today's; code that has a fault is given back with its first one.
pub fn verify_v1(code: Code) -> Result<VerifiedV1, (Code, VerifyErr)>
    ensures { IsVerdict code result }
{
    match verify(code) {
        Ok(code) => Ok(VerifiedV1 { code }),
        Err(fault) => Err(fault),
    }
}

/// The same code for today's version, in memory of its own.
pub fn upgrade(alloc: Global, old: &VerifiedV1) -> Result<Verified, AllocError>
    ensures same { IfOk result (λ new. new ≡ old.now) }
    ensures verified { IfOk result (λ new. IsVerified new) }
    ensures law { IfOk result (λ new. KeepsMeaning (settled old.now) (settled new)) }
{
    old.code.copy(alloc)
}
