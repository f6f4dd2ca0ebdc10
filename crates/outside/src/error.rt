ghost use Rattle.std.specs.Prelude.{◌≡◌};
ghost use Rattle.outside.specs.declared.error.FileErr.TheVariants.{Memory as FileMemory};
ghost use Rattle.outside.specs.declared.error.SpawnErr.TheVariants.{Memory as SpawnMemory};

use std::alloc::{AllocError, AllocFailed};
use std::error::Error;
use std::fmt::{self, Display, Formatter, Write};

/// The call failed, and its object counted a fault.
#[derive(Clone, Copy, Debug)]
pub struct Failed;

/// Why a call of a store of files, a sink or a link gave nothing.
#[derive(Clone, Copy, Debug)]
pub enum FileErr {
    /// There was no memory for it.
    Memory,
    /// It failed, and its object counted a fault.
    Failed,
}

/// Why a call of a spawner gave nothing.
#[derive(Clone, Copy, Debug)]
pub enum SpawnErr {
    /// There was no memory for it.
    Memory,
    /// It failed, and its object counted a fault.
    Failed,
}

impl Display for Failed {
    fn fmt<W: Write>(&self, f: &mut Formatter<W>) -> fmt::Result {
        f.write_str("the call failed")
    }
}

impl Display for FileErr {
    fn fmt<W: Write>(&self, f: &mut Formatter<W>) -> fmt::Result {
        match self {
            FileErr::Memory => f.write_str("out of memory"),
            FileErr::Failed => f.write_str("the call failed"),
        }
    }
}

impl Display for SpawnErr {
    fn fmt<W: Write>(&self, f: &mut Formatter<W>) -> fmt::Result {
        match self {
            SpawnErr::Memory => f.write_str("out of memory"),
            SpawnErr::Failed => f.write_str("the call failed"),
        }
    }
}

impl Error for Failed {}

impl Error for FileErr {}

impl Error for SpawnErr {}

impl From<AllocError> for FileErr {
    ghost from_gives = { λ _ e. e ≡ FileMemory };

    fn from(_: AllocError) -> Self {
        FileErr::Memory
    }
}

impl<T: Drop> From<AllocFailed<T>> for FileErr {
    ghost from_gives = { λ _ e. e ≡ FileMemory };

    fn from(_: AllocFailed<T>) -> Self {
        FileErr::Memory
    }
}

impl From<AllocError> for SpawnErr {
    ghost from_gives = { λ _ e. e ≡ SpawnMemory };

    fn from(_: AllocError) -> Self {
        SpawnErr::Memory
    }
}

impl<T: Drop> From<AllocFailed<T>> for SpawnErr {
    ghost from_gives = { λ _ e. e ≡ SpawnMemory };

    fn from(_: AllocFailed<T>) -> Self {
        SpawnErr::Memory
    }
}
