// The messages that a block of each protocol brings a miner.
ghost use Rattle.std.specs.Prelude.{◌≡◌, ◌+◌, ◌*◌, ◌≤◌, ◌++◌, length, OnOk};
ghost use Rattle.proto_core.specs.Lists.{at, part};
ghost use Rattle.proto_core.specs.declared.party.Number.TheVariants as number;
ghost use Rattle.multiply.specs.Multiplying.{mul_protocol};
ghost use Rattle.open_result.specs.Opening.{left_of_opened, open_protocol};
ghost use Rattle.reshare.specs.Resharing.{reshare_protocol};
ghost use Rattle.split_share.specs.Splitting.{split_protocol};
ghost use Rattle.share_convert.specs.Converting.{conv_protocol};
ghost use Rattle.share_convert.specs.ConvStrand.{b_of, m_of, to_two};
ghost use Rattle.share_convert.specs.Bits.{bits};
ghost use Rattle.gates.specs.Clear.{ring_of};
ghost use Rattle.joint_run.specs.Exchanges.{protocol_of};
ghost use Rattle.view_simulator.specs.Sources.{IsDrawn, Brings, block_mail};

use crate::mails::Mails;
use crate::sources::Sources;
use gates::RingKind;
use joint_run::Exchange;
use proto_core::{AddRing, Block, Msg, Number, ShareRing, XorRing, reshare};
use std::alloc::AllocError;

/// Marks words that are made for a miner that no type names.
struct AnyMiner;

/// The word at an index, and 0 past the end.
#[tactic(auto, using(crate::proofs::RowPieces::cut_steps))]
fn word_at(words: &[u64], index: usize) -> u64
    ensures { result ≡ at words.now index }
{
    if index < words.len() { words[index] } else { 0 }
}

/// Field `number`, from 0, of words that hold one field of n words after another.
fn field(words: &[u64], number: usize, n: usize) -> &[u64]
    requires { number * n + n ≤ length words.now }
    ensures part { result.now ≡ part n number words.now }
    ensures len { length result.now ≡ n }
{
    let from = number * n;
    &words[from..from + n]
}

/// The lowest bit of each word, after what is there.
fn append_bits(msg: &mut Msg, words: &[u64])
    requires { length msg.old + length words.now ≤ 2048 }
    ensures bits { msg.new ≡ msg.old ++ bits (length words.now) words.now }
    ensures len { length msg.new ≡ length msg.old + length words.now }
{
    for word in words {
        msg.push(*word % 2);
    }
}

/// Of a product: the previous miner's masks, and the factors that stand in the next miner's words.
fn add_product(
    ring: RingKind,
    miner: Number,
    sources: &Sources,
    mails: &mut Mails,
) -> Result<(), AllocError>
    requires short { length sources.now.u ≤ 512 }
    requires drawn { IsDrawn (mul_protocol (ring_of ring)) sources.now }
    ensures { OnOk result (Brings miner (block_mail (mul_protocol (ring_of ring)) miner sources.now) mails.old mails.new) }
{
    let masks = sources.words.of(miner.previous());
    let factors = &sources.words.of(miner.next())[..2 * sources.u.len()];
    mails.push_previous(masks)?;
    mails.push_previous(factors)?;
    Ok(())
}

/// What opened words leave without a miner's own new share and the previous one's. Where a word is missing it is taken as 0.
#[tactic(auto, using(proto_core::proofs::Each::each_steps))]
fn left_of_opened<R: ShareRing>(
    opened: &[u64],
    share: &Block<R, AnyMiner>,
    other: &[u64],
) -> Block<R, AnyMiner>
    requires { length other.now ≡ length share.now }
    ensures { result ≡ left_of_opened R.ring (length share.now) opened.now share.now other.now }
{
    let mut left = Block::new();
    for at in 0..share.len() {
        left.append(R::sub(R::sub(word_at(opened, at), share.word(at)), other[at]));
    }
    left
}

/// Of an opening: the previous miner's mask, and its new share, which stands in the next miner's words; and from the next one what the
/// opened words leave.
fn add_opening<R: ShareRing>(
    miner: Number,
    sources: &Sources,
    mails: &mut Mails,
) -> Result<(), AllocError>
    requires short { length sources.now.u ≤ 512 }
    requires drawn { IsDrawn (open_protocol R.ring) sources.now }
    ensures { OnOk result (Brings miner (block_mail (open_protocol R.ring) miner sources.now) mails.old mails.new) }
{
    let mask = sources.words.of(miner.previous());
    let other = sources.words.of(miner.next());
    let share = reshare(
        &Block::<R, AnyMiner>::from_words(sources.u),
        &Block::from_words(sources.words.of(miner)),
        &Block::from_words(mask),
    );
    let left = left_of_opened(sources.opened, &share, other);
    mails.push_previous(mask)?;
    mails.push_previous(other)?;
    mails.push_next(left.words())?;
    Ok(())
}

/// Of a resharing: the previous miner's mask.
fn add_resharing(
    ring: RingKind,
    miner: Number,
    sources: &Sources,
    mails: &mut Mails,
) -> Result<(), AllocError>
    requires short { length sources.now.u ≤ 512 }
    requires drawn { IsDrawn (reshare_protocol (ring_of ring)) sources.now }
    ensures { OnOk result (Brings miner (block_mail (reshare_protocol (ring_of ring)) miner sources.now) mails.old mails.new) }
{
    mails.push_previous(sources.words.of(miner.previous()))
}

/// Of a splitting: the first miner's words, for the two others.
fn add_splitting(
    negated: bool,
    miner: Number,
    sources: &Sources,
    mails: &mut Mails,
) -> Result<(), AllocError>
    requires short { length sources.now.u ≤ 512 }
    requires drawn { IsDrawn (split_protocol negated) sources.now }
    ensures { OnOk result (Brings miner (block_mail (split_protocol negated) miner sources.now) mails.old mails.new) }
{
    match miner {
        Number::One => Ok(()),
        Number::Two => mails.push_previous(sources.words.of(Number::One)),
        Number::Three => mails.push_next(sources.words.of(Number::One)),
    }
}

/// m, the bits of e and a, of the first miner's words b, e, m and a.
fn for_second(words: &[u64], n: usize) -> Msg
    requires short { n ≤ 512 }
    requires drawn { 4 * n ≤ length words.now }
    ensures { result ≡ to_two n words.now }
{
    let mut msg = Msg::from_words(field(words, 2, n));
    append_bits(&mut msg, field(words, 1, n));
    msg.append_words(field(words, 3, n));
    msg
}

/// m and the bits of b, of the first miner's words b, e, m and a.
fn for_third(words: &[u64], n: usize) -> Msg
    requires short { n ≤ 512 }
    requires drawn { 4 * n ≤ length words.now }
    ensures { result ≡ m_of n words.now ++ bits n (b_of n words.now) }
{
    let mut msg = Msg::from_words(field(words, 2, n));
    append_bits(&mut msg, field(words, 0, n));
    msg
}

/// The bits of a field, with words after them.
fn bits_and(words: &[u64], number: usize, n: usize, behind: &[u64]) -> Msg
    requires short { n ≤ 512 }
    requires drawn { number * n + n ≤ length words.now }
    requires behind { length behind.now ≤ 512 }
    ensures { result ≡ bits n (part n number words.now) ++ behind.now }
{
    let mut msg = Msg::new();
    append_bits(&mut msg, field(words, number, n));
    msg.append_words(behind);
    msg
}

/// Of a conversion, to the second miner: the first one's message, and the bits of b.
fn convert_for_second(sources: &Sources, mails: &mut Mails) -> Result<(), AllocError>
    requires short { length sources.now.u ≤ 512 }
    requires drawn { IsDrawn conv_protocol sources.now }
    ensures { OnOk result (Brings number.Two (block_mail conv_protocol number.Two sources.now) mails.old mails.new) }
{
    let n = sources.u.len();
    let words = sources.words.of(Number::One);
    let from_first = for_second(words, n);
    let from_third = bits_and(words, 0, n, &[]);
    mails.push_previous(from_first.words())?;
    mails.push_next(from_third.words())?;
    Ok(())
}

/// Of a conversion, to the third miner: the first one's message, and the bits of e with the second one's words.
fn convert_for_third(sources: &Sources, mails: &mut Mails) -> Result<(), AllocError>
    requires short { length sources.now.u ≤ 512 }
    requires drawn { IsDrawn conv_protocol sources.now }
    ensures { OnOk result (Brings number.Three (block_mail conv_protocol number.Three sources.now) mails.old mails.new) }
{
    let n = sources.u.len();
    let words = sources.words.of(Number::One);
    let from_first = for_third(words, n);
    let from_second = bits_and(words, 1, n, sources.words.of(Number::Two));
    mails.push_previous(from_second.words())?;
    mails.push_next(from_first.words())?;
    Ok(())
}

/// Of a conversion: to the first miner the third one's words, and to the others what the first one's words give.
fn add_conversion(miner: Number, sources: &Sources, mails: &mut Mails) -> Result<(), AllocError>
    requires short { length sources.now.u ≤ 512 }
    requires drawn { IsDrawn conv_protocol sources.now }
    ensures { OnOk result (Brings miner (block_mail conv_protocol miner sources.now) mails.old mails.new) }
{
    match miner {
        Number::One => mails.push_previous(sources.words.of(Number::Three)),
        Number::Two => convert_for_second(sources, mails),
        Number::Three => convert_for_third(sources, mails),
    }
}

/// The messages that a block of at most 512 elements of an exchange brings the miner, after those that came before.
pub(crate) fn add_block(
    exchange: Exchange,
    miner: Number,
    sources: &Sources,
    mails: &mut Mails,
) -> Result<(), AllocError>
    requires short { length sources.now.u ≤ 512 }
    requires drawn { IsDrawn (protocol_of exchange) sources.now }
    ensures { OnOk result (Brings miner (block_mail (protocol_of exchange) miner sources.now) mails.old mails.new) }
{
    match exchange {
        Exchange::Product(ring) => add_product(ring, miner, sources, mails),
        Exchange::Opening(RingKind::Arithmetic) => add_opening::<AddRing>(miner, sources, mails),
        Exchange::Opening(RingKind::Boolean) => add_opening::<XorRing>(miner, sources, mails),
        Exchange::Resharing(ring) => add_resharing(ring, miner, sources, mails),
        Exchange::Splitting(negated) => add_splitting(negated, miner, sources, mails),
        Exchange::Conversion => add_conversion(miner, sources, mails),
    }
}
