ghost use Rattle.std.specs.Prelude.{◌≡◌, ◌*◌, ◌≤◌, ◌++◌, ◌∷◌, [], length, IfOk, OnOk};
ghost use Rattle.share_convert.specs.ConvStrand.{to_two, to_three, one_held, begun, two_held, three_held, one_share, two_share, three_share};

use crate::conv::{First, Second, Sent, Stage};
use crate::kernels::{
    first_share, keep_lowest, mask_field, second_share, take_field, third_share, xor_field,
};
use proto_core::Messages;
use std::alloc::{AllocError, Global};
use std::marker::{Model, PhantomData};

/// One miner's part in converting a block, as far as it has come: what [`Conv`](crate::Conv) is, its words in vectors.
///
/// It holds what masks its share at the end; miners 2 and 3 hold bits too, and once the first miner's message came the
/// word of it that their share is made of. A step takes a message that [`check_words`](crate::check_words) has let pass,
/// or one of the right length where it has no bits, where it lies, and sends its own where messages are kept.
#[derive(Drop)]
pub struct ConvWords<S: Stage> {
    bits: Vec<u64>,
    word: Vec<u64>,
    mask: Vec<u64>,
    of: PhantomData<S>,
}

impl<S: Stage> Model for ConvWords<S> {
    ghost use Rattle.std.specs.Prelude.{◌≡◌, ◌*◌, ◌≤◌, length};
    ghost use Rattle.share_convert.specs.ConvStrand.{Held};

    ghost Value = { Held };

    ghost view = { λ c. record { bits = c.bits.items; word = c.word.items; mask = c.mask.items } };

    ghost invariant = { λ c. (length c.mask.items ≤ 512) × (length c.bits.items ≡ S.bits * length c.mask.items)
        × (length c.word.items ≡ S.words * length c.mask.items) };
}

impl<S: Stage> ConvWords<S> {
    /// How many elements are converted.
    pub fn size(&self) -> usize
        ensures size { result ≡ length self.now.mask }
        ensures bound { result ≤ 512 }
    {
        self.mask.len()
    }
}

impl ConvWords<Sent> {
    /// Begins the first miner's part with its shares of n elements and 4n drawn words, and deals to both others. With no
    /// memory left a part of it may be sent.
    pub fn deal(
        alloc: Global,
        u: &[u64],
        words: &[u64],
        second: &mut Messages,
        third: &mut Messages,
    ) -> Result<Self, AllocError>
        requires short { length u.now ≤ 512 }
        requires drawn { length words.now ≡ 4 * length u.now }
        ensures state { IfOk result (λ s. s ≡ one_held (length u.now) words.now) }
        ensures to_two { OnOk result (second.new ≡ second.old ++ to_two (length u.now) words.now ∷ []) }
        ensures to_three { OnOk result (third.new ≡ third.old ++ to_three (length u.now) u.now words.now ∷ []) }
    {
        let n = u.len();
        let mask = Vec::from_slice(alloc, &words[3 * n..4 * n])?;
        let dealt = words_for_two(alloc, words, n)?;
        second.push_words(&dealt)?;
        let mut masked = Vec::from_slice(alloc, u)?;
        mask_field(&mut masked, words);
        let mut flipped = Vec::from_slice(alloc, &words[n..2 * n])?;
        xor_field(&mut flipped, words, 0);
        third.push_two(&masked, &flipped)?;
        Ok(ConvWords {
            bits: Vec::new(alloc),
            word: Vec::new(alloc),
            mask,
            of: PhantomData,
        })
    }

    /// Takes the third miner's n words, and answers the first miner's share.
    pub fn got31(mut self, got: &[u64]) -> Vec<u64>
        requires { length got.now ≡ length self.mask }
        ensures { result.items ≡ one_share (length self.mask) self got.now }
    {
        first_share(&mut self.mask, got);
        self.mask
    }
}

impl ConvWords<First> {
    /// Begins the second or the third miner's part with its shares and as many drawn words. It sends nothing; the third
    /// miner's words are for the first.
    pub fn begin(alloc: Global, u: &[u64], words: &[u64]) -> Result<Self, AllocError>
        requires short { length u.now ≤ 512 }
        requires drawn { length words.now ≡ length u.now }
        ensures { IfOk result (λ s. s ≡ begun u.now words.now) }
    {
        Ok(ConvWords {
            bits: Vec::from_slice(alloc, u)?,
            word: Vec::new(alloc),
            mask: Vec::from_slice(alloc, words)?,
            of: PhantomData,
        })
    }

    /// The second miner takes the first one's message: n words, n bits, n words, and sends its bits and mask to the third.
    pub fn got12(
        mut self,
        alloc: Global,
        got: &[u64],
        third: &mut Messages,
    ) -> Result<ConvWords<Second>, AllocError>
        requires { length got.now ≡ 3 * length self.mask }
        ensures state { IfOk result (λ s. s ≡ two_held (length self.mask) self got.now) }
        ensures sent { OnOk result (third.new ≡ third.old ++ ((two_held (length self.mask) self got.now).bits ++ self.mask) ∷ []) }
    {
        let n = self.mask.len();
        let word = Vec::from_slice(alloc, &got[..n])?;
        xor_field(&mut self.bits, got, 1);
        third.push_two(&self.bits, &self.mask)?;
        take_field(&mut self.mask, got, 2);
        Ok(ConvWords {
            bits: self.bits,
            word,
            mask: self.mask,
            of: PhantomData,
        })
    }

    /// The third miner takes the first one's message: n words, n bits, and sends its bits to the second.
    pub fn got13(
        mut self,
        alloc: Global,
        got: &[u64],
        second: &mut Messages,
    ) -> Result<ConvWords<Second>, AllocError>
        requires { length got.now ≡ 2 * length self.mask }
        ensures state { IfOk result (λ s. s ≡ three_held (length self.mask) self got.now) }
        ensures sent { OnOk result (second.new ≡ second.old ++ (three_held (length self.mask) self got.now).bits ∷ []) }
    {
        let n = self.mask.len();
        let word = Vec::from_slice(alloc, &got[..n])?;
        xor_field(&mut self.bits, got, 1);
        second.push_words(&self.bits)?;
        Ok(ConvWords {
            bits: self.bits,
            word,
            mask: self.mask,
            of: PhantomData,
        })
    }
}

impl ConvWords<Second> {
    /// Takes the third miner's n bits, and answers the second miner's share.
    pub fn got32(mut self, got: &[u64]) -> Vec<u64>
        requires { length got.now ≡ length self.mask }
        ensures { result.items ≡ two_share (length self.mask) self got.now }
    {
        second_share(&mut self.mask, &self.bits, &self.word, got);
        self.mask
    }

    /// Takes the second miner's message: n bits, n words, and answers the third miner's share.
    pub fn got23(mut self, got: &[u64]) -> Vec<u64>
        requires { length got.now ≡ 2 * length self.mask }
        ensures { result.items ≡ three_share (length self.mask) self got.now }
    {
        third_share(&mut self.mask, &self.bits, &self.word, got);
        self.mask
    }
}

/// What the first miner deals to the second of its 4n drawn words: n words, n bits, n words.
fn words_for_two(alloc: Global, words: &[u64], n: usize) -> Result<Vec<u64>, AllocError>
    requires short { n ≤ 512 }
    requires drawn { length words.now ≡ 4 * n }
    ensures { IfOk result (λ dealt. dealt.items ≡ to_two n words.now) }
{
    let mut low = Vec::from_slice(alloc, &words[n..2 * n])?;
    keep_lowest(&mut low);
    let mut dealt = Vec::with_capacity(alloc, 3 * n)?;
    dealt.extend_from_slice(&words[2 * n..3 * n])?;
    dealt.extend_from_slice(&low)?;
    dealt.extend_from_slice(&words[3 * n..4 * n])?;
    Ok(dealt)
}
