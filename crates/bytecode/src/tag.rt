ghost use Rattle.std.specs.Prelude.{◌≡◌, IsTrue};
ghost use Rattle.bytecode.specs.Versions.{is_tag};
ghost use Rattle.bytecode.specs.inner.Tags.{has_first, has_line, has_operator, has_second, has_third, has_truth, has_word, tag_byte};

use crate::version::CodeVersion;

/// Which instruction it is.
#[derive(Clone, Copy)]
pub(crate) enum Tag {
    Literal,
    Move,
    Store,
    Binary,
    Not,
    Cast,
    Classify,
    Fill,
    At,
    Put,
    Size,
    Cat,
    Sum,
    Bits,
    Declassify,
    Argument,
    Publish,
    Assert,
    Branch,
    Jump,
    Call,
    Return,
    ReturnNone,
    Lookup,
}

/// The tag of a byte that is one.
pub(crate) fn tag_of(version: CodeVersion, byte: u8) -> Tag
    requires { IsTrue (is_tag version byte) }
    ensures { tag_byte result ≡ byte }
{
    match byte {
        0x01 => Tag::Literal,
        0x02 => Tag::Move,
        0x03 => Tag::Store,
        0x04 => Tag::Binary,
        0x05 => Tag::Not,
        0x06 => Tag::Cast,
        0x07 => Tag::Classify,
        0x08 => Tag::Fill,
        0x09 => Tag::At,
        0x0a => Tag::Put,
        0x0b => Tag::Size,
        0x0c => Tag::Cat,
        0x0d => Tag::Sum,
        0x0e => Tag::Bits,
        0x0f => Tag::Declassify,
        0x10 => Tag::Argument,
        0x11 => Tag::Publish,
        0x12 => Tag::Assert,
        0x13 => Tag::Branch,
        0x14 => Tag::Jump,
        0x16 => Tag::Call,
        0x17 => Tag::Return,
        0x18 => Tag::ReturnNone,
        _ => Tag::Lookup,
    }
}

impl Tag {
    /// Whether the instruction has an operator.
    pub(crate) fn has_operator(self) -> bool
        ensures { result ≡ has_operator self }
    {
        matches!(self, Tag::Binary)
    }

    /// Whether the instruction has a first register or place.
    pub(crate) fn has_first(self) -> bool
        ensures { result ≡ has_first self }
    {
        !matches!(self, Tag::Call | Tag::ReturnNone)
    }

    /// Whether the instruction has a truth value.
    pub(crate) fn has_truth(self) -> bool
        ensures { result ≡ has_truth self }
    {
        matches!(self, Tag::Branch)
    }

    /// Whether the instruction has a second register or place.
    pub(crate) fn has_second(self) -> bool
        ensures { result ≡ has_second self }
    {
        matches!(
            self,
            Tag::Move
                | Tag::Store
                | Tag::Not
                | Tag::Cast
                | Tag::Classify
                | Tag::Size
                | Tag::Sum
                | Tag::Declassify
                | Tag::Publish
                | Tag::Fill
                | Tag::At
                | Tag::Put
                | Tag::Cat
                | Tag::Binary
                | Tag::Bits
                | Tag::Lookup
                | Tag::Argument
                | Tag::Branch
        )
    }

    /// Whether the instruction has a third register.
    pub(crate) fn has_third(self) -> bool
        ensures { result ≡ has_third self }
    {
        matches!(
            self,
            Tag::Fill | Tag::At | Tag::Put | Tag::Cat | Tag::Binary | Tag::Lookup
        )
    }

    /// Whether the instruction has a line.
    pub(crate) fn has_line(self) -> bool
        ensures { result ≡ has_line self }
    {
        matches!(
            self,
            Tag::Fill
                | Tag::At
                | Tag::Put
                | Tag::Cat
                | Tag::Binary
                | Tag::Bits
                | Tag::Lookup
                | Tag::Argument
                | Tag::Assert
        )
    }

    /// Whether the instruction has a word.
    pub(crate) fn has_word(self) -> bool
        ensures { result ≡ has_word self }
    {
        matches!(self, Tag::Literal)
    }
}
