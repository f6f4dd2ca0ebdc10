// Code that does nothing.
ghost use Rattle.std.specs.Prelude.{◌≡◌, IfOk};
ghost use Rattle.bytecode.specs.InMemory.{raw_code};
ghost use Rattle.node_run.specs.Idle.{idle_code};

use bytecode::{Code, decode};
use std::alloc::{AllocError, Global};
use verified_code::{Verified, verify};

/// The code of a program whose `main` returns at once.
const IDLE: [u8; 17] = [83, 67, 51, 80, 2, 0, 0, 1, 0, 0, 0, 255, 0, 0, 1, 0, 24];

fn read_idle(alloc: Global) -> Result<Code, AllocError>
    ensures { IfOk result (λ code. raw_code code ≡ idle_code) }
{
    match decode(alloc, &IDLE) {
        Ok(code) => Ok(code),
        Err(_) => Err(AllocError),
    }
}

/// The code of a program that does nothing.
pub fn idle_code(alloc: Global) -> Result<Verified, AllocError>
    ensures { IfOk result (λ code. code ≡ idle_code) }
{
    match verify(read_idle(alloc)?) {
        Ok(code) => Ok(code),
        Err(_) => Err(AllocError),
    }
}
