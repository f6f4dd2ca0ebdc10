ghost use Rattle.std.specs.Prelude.{◌≡◌, ◌+◌, ◌≤◌, ◌↔◌, length, IsOk, IfErr, OnOk};
ghost use Rattle.proto_core.specs.Refusals.{AreBits, WrongBit};
ghost use Rattle.share_convert.specs.Bits.{chosen, bits, xor_bits, bits_less, one_less_where, negative_where};
ghost use Rattle.share_convert.specs.Steps.{HasBits, LacksBits};
ghost use Rattle.proto_core.specs.Rings.{add_ring};

use proto_core::{AddRing, BadMessage, Block, Msg, ShareRing, XorRing};

/// Whether a message has `want` words of which the n from number `from` on are bits; else why not, the length first.
pub fn check_message(msg: &Msg, want: usize, from: usize, n: usize) -> Result<(), BadMessage>
    requires { from + n ≤ want }
    ensures taken { IsOk result ↔ HasBits msg.now want from n }
    ensures err { IfErr result (λ cause. LacksBits msg.now want from n cause) }
{
    check_words(msg.words(), want, from, n)
}

/// Whether there are `want` words of which the n from number `from` on are bits; else why not, the length first.
pub fn check_words(words: &[u64], want: usize, from: usize, n: usize) -> Result<(), BadMessage>
    requires { from + n ≤ want }
    ensures taken { IsOk result ↔ HasBits words.now want from n }
    ensures err { IfErr result (λ cause. LacksBits words.now want from n cause) }
{
    let have = words.len();
    if have != want {
        return Err(BadMessage::BadLength {
            want: want as u64,
            have: have as u64,
        });
    }
    check_bits(words, from, n)
}

/// Whether the n words from number `from` on are bits; else the first that is none.
fn check_bits(words: &[u64], from: usize, n: usize) -> Result<(), BadMessage>
    requires { from + n ≤ length words.now }
    ensures ok { OnOk result (AreBits words.now from n) }
    ensures err { IfErr result (WrongBit words.now from n) }
{
    for at in 0..n {
        let word = words[from + at];
        if word > 1 {
            return Err(BadMessage::NotABit {
                place: (from + at) as u64,
                word,
            });
        }
    }
    Ok(())
}

/// The lowest bit of each word.
#[tactic(auto, using(proto_core::proofs::Each::each_steps), unfolding(crate::specs::Bits::bits))]
pub fn lowest_bits<P>(x: &Block<XorRing, P>) -> Block<XorRing, P>
    ensures bits { result ≡ bits (length x.now) x.now }
    ensures len { length result ≡ length x.now }
{
    let mut low = Block::new();
    for at in 0..x.len() {
        low.append(x.word(at) % 2);
    }
    low
}

/// The lowest bit of each xor.
#[tactic(auto, using(proto_core::proofs::Each::each_steps), unfolding(crate::specs::Bits::xor_bits))]
pub fn xored_bits<P>(x: &Block<XorRing, P>, y: &Block<XorRing, P>) -> Block<XorRing, P>
    requires { length y.now ≡ length x.now }
    ensures bits { result ≡ xor_bits (length x.now) x.now y.now }
    ensures len { length result ≡ length x.now }
{
    let mut low = Block::new();
    for at in 0..x.len() {
        low.append((x.word(at) ^ y.word(at)) % 2);
    }
    low
}

/// The lowest bit of each xor as a number, without the mask.
#[tactic(auto, using(proto_core::proofs::Each::each_steps), unfolding(crate::specs::Bits::bits_less))]
pub fn masked_bits<P>(
    x: &Block<XorRing, P>,
    y: &Block<XorRing, P>,
    mask: &Block<AddRing, P>,
) -> Block<AddRing, P>
    requires y { length y.now ≡ length x.now }
    requires mask { length mask.now ≡ length x.now }
    ensures bits { result ≡ bits_less (length x.now) x.now y.now mask.now }
    ensures len { length result ≡ length x.now }
{
    let mut masked = Block::new();
    for at in 0..x.len() {
        let bit = (x.word(at) ^ y.word(at)) % 2;
        masked.append(AddRing::sub(bit, mask.word(at)));
    }
    masked
}

/// One word, or the other where the bit is set.
pub(crate) fn choose(bit: u64, clear: u64, set: u64) -> u64
    ensures { result ≡ chosen bit clear set }
{
    if bit == 0 { clear } else { set }
}

/// Each word, or 1 less the word where the bit is set.
#[tactic(auto, using(proto_core::proofs::Each::each_steps), unfolding(crate::specs::Bits::one_less_where))]
pub fn one_less<P>(bits: &Block<XorRing, P>, words: &Block<AddRing, P>) -> Block<AddRing, P>
    requires { length words.now ≡ length bits.now }
    ensures words { result ≡ one_less_where (length bits.now) bits.now words.now }
    ensures len { length result ≡ length bits.now }
{
    let mut made = Block::new();
    for at in 0..bits.len() {
        let word = words.word(at);
        made.append(choose(bits.word(at), word, AddRing::sub(1, word)));
    }
    made
}

/// Each word, or its negative where the bit is set.
#[tactic(auto, using(proto_core::proofs::Each::each_steps), unfolding(crate::specs::Bits::negative_where))]
pub fn negated<P>(bits: &Block<XorRing, P>, words: &Block<AddRing, P>) -> Block<AddRing, P>
    requires { length words.now ≡ length bits.now }
    ensures words { result ≡ negative_where (length bits.now) bits.now words.now }
    ensures len { length result ≡ length bits.now }
{
    let mut made = Block::new();
    for at in 0..bits.len() {
        let word = words.word(at);
        made.append(choose(bits.word(at), word, negative(word)));
    }
    made
}

/// What has to be added to give 0.
pub(crate) fn negative(word: u64) -> u64
    ensures { result ≡ add_ring.neg word }
{
    AddRing::sub(0, word)
}
