// Why a file gives no source of tapes.
ghost use Rattle.std.specs.Prelude.{◌≡◌};
ghost use Rattle.tape_sources.specs.declared.open_err.OpenErr.TheVariants.{Failed as OpenFailed};

use outside::Failed;

/// Why a file gives no source of tapes.
#[derive(Clone, Copy, Debug)]
pub enum OpenErr {
    /// The file is no tape file; `place` is where in it the first fault is.
    BadTape { place: u64 },
    /// A call of the store failed, and it counted a fault.
    Failed,
}

impl From<Failed> for OpenErr {
    ghost from_gives = { λ _ e. e ≡ OpenFailed };

    fn from(_: Failed) -> Self {
        OpenErr::Failed
    }
}
