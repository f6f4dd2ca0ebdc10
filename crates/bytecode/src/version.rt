// Versions of code.
ghost use Rattle.std.specs.Prelude.{◌≡◌};
ghost use Rattle.bytecode.specs.Kinds.{is_kind};
ghost use Rattle.bytecode.specs.Versions.{is_tag, version_byte};

/// The byte of the version that is written.
pub(crate) const VERSION: u8 = 2;

/// A version of code. In the first a call has as many arguments as the called function has parameters, and none where there is no such
/// function; in the second their number stands before them. The second alone has numbers with a sign, and look-ups.
#[derive(Clone, Copy)]
pub(crate) enum CodeVersion {
    First,
    Second,
}

impl CodeVersion {
    /// The byte that stands for it after the letters.
    pub(crate) fn byte(self) -> u8
        ensures { result ≡ version_byte self }
    {
        match self {
            CodeVersion::First => 1,
            CodeVersion::Second => VERSION,
        }
    }

    /// Whether an instruction begins with this number.
    pub(crate) fn is_tag(self, value: u64) -> bool
        ensures { result ≡ is_tag self value }
    {
        let limit = match self {
            CodeVersion::First => 25,
            CodeVersion::Second => 26,
        };
        0 < value && value < limit && value != 0x15
    }

    /// Whether this number stands for a kind.
    pub(crate) fn is_kind(self, value: u64) -> bool
        ensures { result ≡ is_kind self value }
    {
        match self {
            CodeVersion::First => value < 8,
            CodeVersion::Second => value < 10 || 11 < value && value < 14,
        }
    }
}
