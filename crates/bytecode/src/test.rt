ghost use Rattle.std.specs.Prelude.{◌≡◌};
ghost use Rattle.bytecode.specs.inner.Tests.{passes};

use crate::version::CodeVersion;

/// What a number that is read has to be.
#[derive(Clone, Copy)]
pub(crate) enum Test {
    Any,
    Tag(CodeVersion),
    Operator,
    Truth,
    Kind(CodeVersion),
    Return(CodeVersion),
    Count,
    NameLength,
}

impl Test {
    /// Whether a number passes.
    pub(crate) fn passes(self, value: u64) -> bool
        ensures { result ≡ passes self value }
    {
        match self {
            Test::Any => true,
            Test::Tag(version) => version.is_tag(value),
            Test::Operator => value < 14,
            Test::Truth => value < 2,
            Test::Kind(version) => version.is_kind(value),
            Test::Return(version) => version.is_kind(value) || value == 255,
            Test::Count => 0 < value,
            Test::NameLength => 1 <= value && value <= 64,
        }
    }
}
