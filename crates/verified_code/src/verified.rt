// Verified code.
ghost use Rattle.std.specs.Prelude.{◌≡◌, IfOk, option_map, slice_get};
ghost use Rattle.bytecode.specs.InMemory.{raw_code, raw_function};
ghost use Rattle.verified_code.specs.InMemory.{step_at, step_in};
ghost use Rattle.verified_code.specs.Settled.{settled_function};
ghost use Rattle.verified_code.specs.Verified.{IsVerdict, IsVerified};

use crate::fault::VerifyErr;
use crate::settling::settle;
use crate::step::Step;
use crate::verifying::first_fault;
use bytecode::{Code, CodeFunction};
use sc_text::Name;
use std::alloc::{AllocError, Global};
use std::marker::Model;

/// Code that is verified. Clauses see it as raw code.
pub struct Verified {
    code: Code,
}

// Written out, so that an early exit calls this once.
impl Drop for Verified {
    fn drop(self) {
        let Verified { code: _ } = self;
    }
}

impl Model for Verified {
    ghost use Rattle.bytecode.specs.InMemory.{raw_code};
    ghost use Rattle.bytecode.specs.Raw.{RawCode};
    ghost use Rattle.verified_code.specs.Verified.{IsVerified};

    ghost Value = { RawCode };

    ghost view = { λ v. raw_code v.code };

    ghost invariant = { λ v. IsVerified (raw_code v.code) };
}

impl Verified {
    /// The code.
    pub fn code(&self) -> &Code
        ensures code { raw_code result.now ≡ self.now }
        ensures verified { IsVerified self.now }
    {
        &self.code
    }

    /// The step of a function's place, if it is there.
    pub fn step(&self, function: usize, place: usize) -> Option<Step<'_>>
        ensures { option_map step_in result ≡ step_at self.now function place }
    {
        match self.code.functions.get(function) {
            Some(own) => step_of(&self.code.names, own, place),
            None => None,
        }
    }

    /// The same code in memory of its own.
    pub fn copy(&self, alloc: Global) -> Result<Verified, AllocError>
        ensures { IfOk result (λ copy. copy ≡ self.now) }
    {
        let code = self.code.copy(alloc)?;
        Ok(Verified { code })
    }
}

fn step_of<'c>(names: &'c [Name], own: &'c CodeFunction, place: usize) -> Option<Step<'c>>
    ensures { option_map step_in result ≡ slice_get (settled_function names.now (raw_function own.now)).steps place }
{
    match own.body.get(place) {
        Some(instruction) => Some(settle(names, &own.registers, instruction)),
        None => None,
    }
}

/// Verifies code; code that has a fault is given back with its first one.
pub fn verify(code: Code) -> Result<Verified, (Code, VerifyErr)>
    ensures { IsVerdict code result }
{
    match first_fault(&code) {
        None => Ok(Verified { code }),
        Some(fault) => Err((code, fault)),
    }
}
