ghost use Rattle.std.specs.Prelude.{◌≡◌, ◌*◌, ◌≤◌, ◌↔◌, ℕ, length, IfOk, IfErr, IsOk};
ghost use Rattle.proto_core.specs.Refusals.{WrongLength, RefusesBits};
ghost use Rattle.share_convert.specs.ConvStrand.{begun};
ghost use Rattle.share_convert.specs.Steps.{HasBits, OneStarts, Got31, Got12, Got32, Got13, Got23};

use crate::bits::{check_message, lowest_bits, masked_bits, negated, one_less, xored_bits};
use proto_core::{
    AddRing, Block, Msg, P1, P2, P3, Refused, XorRing, add_blocks, reshare, subtract_blocks,
    zero_block,
};
use std::marker::{Model, PhantomData};

/// What is awaited, by what is held meanwhile: each is 1 or 0.
pub trait Stage {
    /// Whether bits are held.
    ghost bits: { ℕ };

    /// Whether a number is held that the bits choose from.
    ghost words: { ℕ };
}

/// The first miner has sent its messages, and awaits the third miner's mask.
#[derive(Drop)]
pub struct Sent;

/// The first miner's message is awaited.
#[derive(Drop)]
pub struct First;

/// The message of the other of miners 2 and 3 is awaited.
#[derive(Drop)]
pub struct Second;

impl Stage for Sent {
    ghost bits = { 0 };

    ghost words = { 0 };
}

impl Stage for First {
    ghost bits = { 1 };

    ghost words = { 0 };
}

impl Stage for Second {
    ghost bits = { 1 };

    ghost words = { 1 };
}

/// One miner's part in converting a block, in the state `S`, which says what message is awaited.
///
/// It holds what masks its share at the end; miners 2 and 3 hold bits too, at first their shares and then those that
/// they sent, and once the first miner's message came the word of it that their share is made of.
///
/// The first miner deals the bit of b xor its share, where b is drawn, to the other two as a sum m + f. They find the bit
/// of b xor both their shares: one tells the other e xor its share, and the other b xor e xor its own, which say nothing to
/// one who knows e alone or b xor e alone. The result is m + f where that bit is clear, and (1 - m) - f where it is set;
/// each masks its summand anew. It is a protocol in the manner of Bogdanov, Niitsoo, Toft and Willemson,
/// "High-performance secure multi-party computation for data mining applications" (2012).
#[derive(Drop)]
pub struct Conv<P, S: Stage> {
    bits: Block<XorRing, P>,
    word: Block<AddRing, P>,
    mask: Block<AddRing, P>,
    of: PhantomData<S>,
}

impl<P, S: Stage> Model for Conv<P, S> {
    ghost use Rattle.std.specs.Prelude.{◌≡◌, ◌*◌, ◌≤◌, length};
    ghost use Rattle.share_convert.specs.ConvStrand.{Held};

    ghost Value = { Held };

    ghost view = { λ c. record { bits = c.bits; word = c.word; mask = c.mask } };

    ghost invariant = { λ c. (length c.mask ≤ 512) × (length c.bits ≡ S.bits * length c.mask) × (length c.word ≡ S.words * length c.mask) };
}

impl<P, S: Stage> Conv<P, S> {
    /// How many elements are converted.
    pub fn size(&self) -> usize
        ensures { result ≡ length self.now.mask }
    {
        self.mask.len()
    }
}

impl Conv<P1, Sent> {
    /// Begins to convert the block `u` of n elements with 4n drawn words. The messages are for the second and the third
    /// miner.
    #[tactic(auto, using(proto_core::proofs::Parts::part_steps))]
    pub fn start(u: &Block<XorRing, P1>, words: &[u64]) -> (Self, Msg, Msg)
        requires { length words.now ≡ 4 * length u.now }
        ensures { OneStarts u.now words.now result.0 result.1 result.2 }
    {
        let n = u.len();
        let drawn = Msg::from_words(words);
        let b = drawn.field(0, n);
        let e: Block<XorRing, P1> = drawn.field(1, n);
        let m = drawn.field(2, n);
        let mask = drawn.field(3, n);
        let mut to_two = Msg::from_block(&m);
        to_two.append_block(&lowest_bits(&e));
        to_two.append_block(&mask);
        let mut to_three = Msg::from_block(&masked_bits(&b, u, &m));
        to_three.append_block(&xored_bits(&b, &e));
        (
            Conv {
                bits: Block::new(),
                word: Block::new(),
                mask,
                of: PhantomData,
            },
            to_two,
            to_three,
        )
    }

    /// Takes the third miner's mask, and answers the first miner's share. A message of a wrong length is refused.
    pub fn got31(self, msg: &Msg) -> Result<Block<AddRing, P1>, Refused<Self>>
        ensures taken { IsOk result ↔ (length msg.now ≡ length self.mask) }
        ensures ok { IfOk result (λ share. Got31 self msg.now share) }
        ensures err { IfErr result (WrongLength self (length self.mask) (length msg.now)) }
    {
        let n = self.mask.len();
        if msg.len() != n {
            return Err(Refused::wrong_length(self, n, msg.len()));
        }
        let got = Block::from_words(msg.words());
        Ok(reshare(&zero_block(n), &self.mask, &got))
    }
}

impl Conv<P2, First> {
    /// Begins to convert the block `u` with as many drawn words.
    pub fn start(u: &Block<XorRing, P2>, words: &[u64]) -> Self
        requires { length words.now ≡ length u.now }
        ensures { result ≡ begun u.now words.now }
    {
        let bits = u.copy();
        Conv {
            bits,
            word: Block::new(),
            mask: Block::from_words(words),
            of: PhantomData,
        }
    }

    /// Takes the first miner's message: n words, n bits, n words. The message is for the third miner. A message of a
    /// wrong length is refused, and one whose second field has a word over 1, at the first such word.
    #[tactic(auto, using(proto_core::proofs::Parts::part_steps))]
    pub fn got12(self, msg: &Msg) -> Result<(Conv<P2, Second>, Msg), Refused<Self>>
        ensures taken { IsOk result ↔ HasBits msg.now (3 * length self.mask) (length self.mask) (length self.mask) }
        ensures ok { IfOk result (λ x. Got12 self msg.now x.0 x.1) }
        ensures err { IfErr result (RefusesBits self msg.now (3 * length self.mask) (length self.mask) (length self.mask)) }
    {
        let n = self.mask.len();
        if let Err(cause) = check_message(msg, 3 * n, n, n) {
            return Err(Refused { state: self, cause });
        }
        let bits = xored_bits(&msg.field(1, n), &self.bits);
        let mut to_three = Msg::from_block(&bits);
        to_three.append_block(&self.mask);
        Ok((
            Conv {
                bits,
                word: msg.field(0, n),
                mask: subtract_blocks(&self.mask, &msg.field(2, n)),
                of: PhantomData,
            },
            to_three,
        ))
    }
}

impl Conv<P2, Second> {
    /// Takes the third miner's n bits, and answers the second miner's share. A message of a wrong length is refused,
    /// and one with a word over 1, at the first such word.
    pub fn got32(self, msg: &Msg) -> Result<Block<AddRing, P2>, Refused<Self>>
        ensures taken { IsOk result ↔ HasBits msg.now (length self.mask) 0 (length self.mask) }
        ensures ok { IfOk result (λ share. Got32 self msg.now share) }
        ensures err { IfErr result (RefusesBits self msg.now (length self.mask) 0 (length self.mask)) }
    {
        let n = self.mask.len();
        if let Err(cause) = check_message(msg, n, 0, n) {
            return Err(Refused { state: self, cause });
        }
        let choice = xored_bits(&self.bits, &Block::from_words(msg.words()));
        Ok(add_blocks(&one_less(&choice, &self.word), &self.mask))
    }
}

impl Conv<P3, First> {
    /// Begins to convert the block `u` with as many drawn words. The message, these words, is for the first miner.
    pub fn start(u: &Block<XorRing, P3>, words: &[u64]) -> (Self, Msg)
        requires { length words.now ≡ length u.now }
        ensures state { result.0 ≡ begun u.now words.now }
        ensures mask { result.1 ≡ words.now }
    {
        let bits = u.copy();
        let mask = Block::from_words(words);
        let to_one = Msg::from_block(&mask);
        (
            Conv {
                bits,
                word: Block::new(),
                mask,
                of: PhantomData,
            },
            to_one,
        )
    }

    /// Takes the first miner's message: n words, n bits. The message is for the second miner. A message of a wrong
    /// length is refused, and one whose second field has a word over 1, at the first such word.
    #[tactic(auto, using(proto_core::proofs::Parts::part_steps))]
    pub fn got13(self, msg: &Msg) -> Result<(Conv<P3, Second>, Msg), Refused<Self>>
        ensures taken { IsOk result ↔ HasBits msg.now (2 * length self.mask) (length self.mask) (length self.mask) }
        ensures ok { IfOk result (λ x. Got13 self msg.now x.0 x.1) }
        ensures err { IfErr result (RefusesBits self msg.now (2 * length self.mask) (length self.mask) (length self.mask)) }
    {
        let n = self.mask.len();
        if let Err(cause) = check_message(msg, 2 * n, n, n) {
            return Err(Refused { state: self, cause });
        }
        let bits = xored_bits(&msg.field(1, n), &self.bits);
        let to_two = Msg::from_block(&bits);
        Ok((
            Conv {
                bits,
                word: msg.field(0, n),
                mask: self.mask,
                of: PhantomData,
            },
            to_two,
        ))
    }
}

impl Conv<P3, Second> {
    /// Takes the second miner's message: n bits, n words, and answers the third miner's share. A message of a wrong
    /// length is refused, and one whose first field has a word over 1, at the first such word.
    #[tactic(auto, using(proto_core::proofs::Parts::part_steps))]
    pub fn got23(self, msg: &Msg) -> Result<Block<AddRing, P3>, Refused<Self>>
        ensures taken { IsOk result ↔ HasBits msg.now (2 * length self.mask) 0 (length self.mask) }
        ensures ok { IfOk result (λ share. Got23 self msg.now share) }
        ensures err { IfErr result (RefusesBits self msg.now (2 * length self.mask) 0 (length self.mask)) }
    {
        let n = self.mask.len();
        if let Err(cause) = check_message(msg, 2 * n, 0, n) {
            return Err(Refused { state: self, cause });
        }
        let choice = xored_bits(&msg.field(0, n), &self.bits);
        Ok(reshare(&negated(&choice, &self.word), &self.mask, &msg.field(1, n)))
    }
}
