ghost use Rattle.std.specs.Prelude.{◌≡◌, ◌≤◌, if◌then◌else◌};
ghost use Rattle.bytecode.specs.Kinds.{element_bit, kind_byte, kind_of, return_byte, return_of};

use program_trees::DataType;

/// What a register holds: a private or a public value, of elements of a type, one or an array of them.
#[derive(Clone, Copy)]
pub struct Kind {
    pub secret: bool,
    pub element: DataType,
    pub array: bool,
}

fn bit_where(is_set: bool, bit: u8) -> u8
    ensures bit { result ≡ (if is_set then bit else 0) }
    ensures within { result ≤ bit }
{
    if is_set { bit } else { 0 }
}

fn element_bit(element: DataType) -> u8
    ensures bit { result ≡ element_bit element }
    ensures within { result ≤ 8 }
{
    match element {
        DataType::Uint64 => 0,
        DataType::Int64 => 8,
        DataType::Bool => 2,
    }
}

impl Kind {
    /// The kind's byte.
    pub(crate) fn byte(self) -> u8
        ensures { result ≡ kind_byte self }
    {
        bit_where(self.secret, 1) + element_bit(self.element) + bit_where(self.array, 4)
    }
}

/// The byte of what a function gives back.
pub(crate) fn return_byte(gives: Option<Kind>) -> u8
    ensures { result ≡ return_byte gives }
{
    match gives {
        Some(kind) => kind.byte(),
        None => 255,
    }
}

/// The kind of a byte.
pub(crate) fn kind_of(byte: u8) -> Kind
    ensures { result ≡ kind_of byte }
{
    let element = if byte / 2 % 2 == 1 {
        DataType::Bool
    } else if byte / 8 == 1 {
        DataType::Int64
    } else {
        DataType::Uint64
    };
    Kind {
        secret: byte % 2 == 1,
        element,
        array: byte / 4 % 2 == 1,
    }
}

/// What a function gives back, of its byte.
pub(crate) fn return_of(byte: u8) -> Option<Kind>
    ensures { result ≡ return_of byte }
{
    if byte == 255 {
        None
    } else {
        Some(kind_of(byte))
    }
}
