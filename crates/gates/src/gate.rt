// The operations on shared values.
ghost use Rattle.std.specs.Prelude.{◌≡◌, IfOk};
ghost use Rattle.gates.specs.Counts.{made_by};

use crate::ring_kind::RingKind;
use crate::words::Words;
use std::alloc::{AllocError, Global};

/// One operation on shared values. Operands are numbers of values that were made before.
#[derive(Drop, Debug)]
pub enum Gate {
    /// The private input of a number, from 0.
    Input {
        number: u64,
    },
    /// Words that everybody knows.
    Const {
        list: Words,
    },
    /// The sum of two values, modulo 2^64.
    Add {
        left: u64,
        right: u64,
    },
    /// The difference of two values, modulo 2^64.
    Sub {
        left: u64,
        right: u64,
    },
    /// The product of a value and words that everybody knows, in a ring.
    MulPub {
        ring: RingKind,
        operand: u64,
        list: Words,
    },
    /// The product of two values, modulo 2^64.
    Mul {
        left: u64,
        right: u64,
    },
    /// The exclusive or of two values.
    Xor {
        left: u64,
        right: u64,
    },
    /// The bitwise and of two values.
    And {
        left: u64,
        right: u64,
    },
    /// All 64 bits of each word turned round.
    Not {
        operand: u64,
    },
    /// Each word shifted `count` bits up; what passes bit 63 is lost.
    Shl {
        operand: u64,
        count: u64,
    },
    /// Each word shifted `count` bits down; what passes bit 0 is lost.
    Shr {
        operand: u64,
        count: u64,
    },
    /// Bit 0 of each word.
    Low {
        operand: u64,
    },
    /// One value's words and then another's.
    Cat {
        left: u64,
        right: u64,
    },
    /// `count` words of a value, from number `from` on.
    Part {
        operand: u64,
        from: u64,
        count: u64,
    },
    /// A value with the word of number `index` given by another value of one word.
    Put {
        operand: u64,
        index: u64,
        element: u64,
    },
    /// The word of a value of one word, `count` times.
    Rep {
        operand: u64,
        count: u64,
    },
    /// Bit 0 of each word, 64 of them in a word.
    Pack {
        operand: u64,
    },
    /// The first `count` bits of a value, each as a word of its own.
    Unpack {
        operand: u64,
        count: u64,
    },
    /// Bit 0 of a value of one word, `count` times, 64 of them in a word.
    RepBit {
        operand: u64,
        count: u64,
    },
    /// The bit of number `index` of a value, as a word.
    PartBit {
        operand: u64,
        index: u64,
    },
    /// A value with the bit of number `index` given by bit 0 of another value of one word.
    PutBit {
        operand: u64,
        index: u64,
        element: u64,
    },
    /// The first `left_count` bits of a value, followed by the first `right_count` of another, 64 of them in a word.
    CatBit {
        left: u64,
        left_count: u64,
        right: u64,
        right_count: u64,
    },
    /// The sum of all words of a value, modulo 2^64.
    Sum {
        operand: u64,
    },
    /// Each word of a value, `count` times in a row.
    Stretch {
        operand: u64,
        count: u64,
    },
    /// All words of a value, `count` times.
    Tile {
        operand: u64,
        count: u64,
    },
    /// The sums, modulo 2^64, of `count` parts of a value, each of `size` words.
    SumEach {
        operand: u64,
        size: u64,
        count: u64,
    },
    /// Two values which add up to the operand modulo 2^64, or, negated, whose difference it is.
    Split {
        operand: u64,
        negated: bool,
    },
    /// A truth value, shared by xor, as a number 0 or 1, shared by sums.
    Conv {
        operand: u64,
    },
    /// A value opened to all miners.
    Open {
        ring: RingKind,
        operand: u64,
    },
    /// A value handed to the client.
    Result {
        ring: RingKind,
        operand: u64,
    },
}

impl Gate {
    /// How many values the gate makes.
    pub fn made_by(&self) -> u64
        ensures { result ≡ made_by self.now }
    {
        match self {
            Gate::Split { .. } => 2,
            _ => 1,
        }
    }

    /// The same gate again.
    pub fn copy(&self, alloc: Global) -> Result<Gate, AllocError>
        ensures { IfOk result (λ gate. gate ≡ self.now) }
    {
        Ok(match self {
            Gate::Input { number } => Gate::Input { number: *number },
            Gate::Const { list } => Gate::Const {
                list: list.copy(alloc)?,
            },
            Gate::Add { left, right } => Gate::Add {
                left: *left,
                right: *right,
            },
            Gate::Sub { left, right } => Gate::Sub {
                left: *left,
                right: *right,
            },
            Gate::MulPub {
                ring,
                operand,
                list,
            } => Gate::MulPub {
                ring: *ring,
                operand: *operand,
                list: list.copy(alloc)?,
            },
            Gate::Mul { left, right } => Gate::Mul {
                left: *left,
                right: *right,
            },
            Gate::Xor { left, right } => Gate::Xor {
                left: *left,
                right: *right,
            },
            Gate::And { left, right } => Gate::And {
                left: *left,
                right: *right,
            },
            Gate::Not { operand } => Gate::Not { operand: *operand },
            Gate::Shl { operand, count } => Gate::Shl {
                operand: *operand,
                count: *count,
            },
            Gate::Shr { operand, count } => Gate::Shr {
                operand: *operand,
                count: *count,
            },
            Gate::Low { operand } => Gate::Low { operand: *operand },
            Gate::Cat { left, right } => Gate::Cat {
                left: *left,
                right: *right,
            },
            Gate::Part {
                operand,
                from,
                count,
            } => Gate::Part {
                operand: *operand,
                from: *from,
                count: *count,
            },
            Gate::Put {
                operand,
                index,
                element,
            } => Gate::Put {
                operand: *operand,
                index: *index,
                element: *element,
            },
            Gate::Rep { operand, count } => Gate::Rep {
                operand: *operand,
                count: *count,
            },
            Gate::Pack { operand } => Gate::Pack { operand: *operand },
            Gate::Unpack { operand, count } => Gate::Unpack {
                operand: *operand,
                count: *count,
            },
            Gate::RepBit { operand, count } => Gate::RepBit {
                operand: *operand,
                count: *count,
            },
            Gate::PartBit { operand, index } => Gate::PartBit {
                operand: *operand,
                index: *index,
            },
            Gate::PutBit {
                operand,
                index,
                element,
            } => Gate::PutBit {
                operand: *operand,
                index: *index,
                element: *element,
            },
            Gate::CatBit {
                left,
                left_count,
                right,
                right_count,
            } => Gate::CatBit {
                left: *left,
                left_count: *left_count,
                right: *right,
                right_count: *right_count,
            },
            Gate::Sum { operand } => Gate::Sum { operand: *operand },
            Gate::Stretch { operand, count } => Gate::Stretch {
                operand: *operand,
                count: *count,
            },
            Gate::Tile { operand, count } => Gate::Tile {
                operand: *operand,
                count: *count,
            },
            Gate::SumEach {
                operand,
                size,
                count,
            } => Gate::SumEach {
                operand: *operand,
                size: *size,
                count: *count,
            },
            Gate::Split { operand, negated } => Gate::Split {
                operand: *operand,
                negated: *negated,
            },
            Gate::Conv { operand } => Gate::Conv { operand: *operand },
            Gate::Open { ring, operand } => Gate::Open {
                ring: *ring,
                operand: *operand,
            },
            Gate::Result { ring, operand } => Gate::Result {
                ring: *ring,
                operand: *operand,
            },
        })
    }
}
