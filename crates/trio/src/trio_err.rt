// Why a run of three miners gives no text.
ghost use Rattle.std.specs.Prelude.{◌≡◌};
ghost use Rattle.trio.specs.declared.trio_err.TrioErr.TheVariants.{Child, Texts};

use crate::child_err::ChildErr;
use crate::join_err::JoinErr;

/// Why a run of three miners as programs of their own gives no text.
pub enum TrioErr {
    /// The miners did not all run to their end.
    Child(ChildErr),
    /// Their texts are not put together.
    Texts(JoinErr),
}

// Written out, so that an early exit calls this once.
impl Drop for TrioErr {
    fn drop(self) {
        match self {
            TrioErr::Child(_) | TrioErr::Texts(_) => {}
        }
    }
}

impl From<ChildErr> for TrioErr {
    ghost from_gives = { λ err e. e ≡ Child err };

    fn from(err: ChildErr) -> Self {
        TrioErr::Child(err)
    }
}

impl From<JoinErr> for TrioErr {
    ghost from_gives = { λ err e. e ≡ Texts err };

    fn from(err: JoinErr) -> Self {
        TrioErr::Texts(err)
    }
}
