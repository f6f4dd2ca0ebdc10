ghost use Rattle.std.specs.Prelude.{◌≡◌, ◌≤◌, ◌*◌, length, OnOk, IfOk};
ghost use Rattle.gates.specs.Clear.{ring_of};
ghost use Rattle.multiply.specs.MulStrand.{mul_strand};
ghost use Rattle.open_result.specs.Opening.{open_strand};
ghost use Rattle.reshare.specs.Resharing.{reshare_strand};
ghost use Rattle.split_share.specs.Splitting.{split_draws};
ghost use Rattle.split_share.specs.SplitStrand.{split_strand};
ghost use Rattle.gate_exchanges.specs.Exchanges.{protocol_of};
ghost use Rattle.block_steps.specs.Outcomes.{outcome_of, IsBeside};
ghost use Rattle.block_steps.specs.Pendings.{pending_left, progress_left, HasBegun};

use crate::links::Links;
use crate::pending::Pending;
use crate::progress::Progress;
use crate::{converting, multiplying, opening, resharing, splitting};
use gate_exchanges::Exchange;
use gates::RingKind;
use proto_core::Party;
use std::alloc::AllocError;

/// Begins a block of at most 512 elements of an exchange, with the miner's shares of the operands and its drawn words. It sends
/// what the protocol sends at first; no message is taken.
///
/// The first miner's splitting is through at once, and each other block awaits a message. Fails where memory runs out: a part
/// of what is sent may then be there.
pub fn begin<P: Party>(
    exchange: Exchange,
    u: &[u64],
    v: &[u64],
    words: &[u64],
    links: &mut Links,
) -> Result<Progress<Pending<P>>, AllocError>
    requires short { length u.now ≤ 512 }
    requires second { length v.now ≡ (protocol_of exchange).second (length u.now) }
    requires drawn { length words.now ≡ (protocol_of exchange).draws (length u.now) P.me }
    ensures same { IfOk result (λ to. outcome_of P.me links.new (progress_left (pending_left P.me) to)
        ≡ outcome_of P.me links.old ((protocol_of exchange).strand (length u.now) P.me u.now v.now words.now)) }
    ensures begins { IfOk result HasBegun }
    ensures unread { OnOk result (IsBeside links.old links.new) }
{
    match exchange {
        Exchange::Product(ring) => begin_product(ring, u, v, words, links),
        Exchange::Opening(ring) => begin_opening(ring, u, words, links),
        Exchange::Resharing(ring) => begin_resharing(ring, u, words, links),
        Exchange::Conversion => {
            let state = converting::begin(u, words, links)?;
            Ok(Progress::Goes(Pending::Conversion(state)))
        }
        Exchange::Splitting(negated) => begin_splitting(negated, u, words, links),
    }
}

/// A product in a ring.
fn begin_product<P: Party>(
    ring: RingKind,
    u: &[u64],
    v: &[u64],
    words: &[u64],
    links: &mut Links,
) -> Result<Progress<Pending<P>>, AllocError>
    requires short { length u.now ≤ 512 }
    requires second { length v.now ≡ length u.now }
    requires drawn { length words.now ≡ 3 * length u.now }
    ensures same { IfOk result (λ to. outcome_of P.me links.new (progress_left (pending_left P.me) to)
        ≡ outcome_of P.me links.old (mul_strand (ring_of ring) (length u.now) P.me u.now v.now words.now)) }
    ensures begins { IfOk result HasBegun }
    ensures unread { OnOk result (IsBeside links.old links.new) }
{
    match ring {
        RingKind::Arithmetic => {
            let block = multiplying::begin(u, v, words, links)?;
            Ok(Progress::Goes(Pending::Numbers(block)))
        }
        RingKind::Boolean => {
            let block = multiplying::begin(u, v, words, links)?;
            Ok(Progress::Goes(Pending::Bits(block)))
        }
    }
}

/// An opening in a ring.
fn begin_opening<P: Party>(
    ring: RingKind,
    u: &[u64],
    words: &[u64],
    links: &mut Links,
) -> Result<Progress<Pending<P>>, AllocError>
    requires short { length u.now ≤ 512 }
    requires drawn { length words.now ≡ length u.now }
    ensures same { IfOk result (λ to. outcome_of P.me links.new (progress_left (pending_left P.me) to)
        ≡ outcome_of P.me links.old (open_strand (ring_of ring) (length u.now) P.me u.now words.now)) }
    ensures begins { IfOk result HasBegun }
    ensures unread { OnOk result (IsBeside links.old links.new) }
{
    match ring {
        RingKind::Arithmetic => {
            let block = opening::begin(u, words, links)?;
            Ok(Progress::Goes(Pending::Numbers(block)))
        }
        RingKind::Boolean => {
            let block = opening::begin(u, words, links)?;
            Ok(Progress::Goes(Pending::Bits(block)))
        }
    }
}

/// A resharing in a ring.
fn begin_resharing<P: Party>(
    ring: RingKind,
    u: &[u64],
    words: &[u64],
    links: &mut Links,
) -> Result<Progress<Pending<P>>, AllocError>
    requires short { length u.now ≤ 512 }
    requires drawn { length words.now ≡ length u.now }
    ensures same { IfOk result (λ to. outcome_of P.me links.new (progress_left (pending_left P.me) to)
        ≡ outcome_of P.me links.old (reshare_strand (ring_of ring) (length u.now) P.me u.now words.now)) }
    ensures begins { IfOk result HasBegun }
    ensures unread { OnOk result (IsBeside links.old links.new) }
{
    match ring {
        RingKind::Arithmetic => {
            let block = resharing::begin(u, words, links)?;
            Ok(Progress::Goes(Pending::Numbers(block)))
        }
        RingKind::Boolean => {
            let block = resharing::begin(u, words, links)?;
            Ok(Progress::Goes(Pending::Bits(block)))
        }
    }
}

/// A splitting.
fn begin_splitting<P: Party>(
    negated: bool,
    u: &[u64],
    words: &[u64],
    links: &mut Links,
) -> Result<Progress<Pending<P>>, AllocError>
    requires short { length u.now ≤ 512 }
    requires drawn { length words.now ≡ split_draws (length u.now) P.me }
    ensures same { IfOk result (λ to. outcome_of P.me links.new (progress_left (pending_left P.me) to)
        ≡ outcome_of P.me links.old (split_strand negated (length u.now) P.me u.now words.now)) }
    ensures begins { IfOk result HasBegun }
    ensures unread { OnOk result (IsBeside links.old links.new) }
{
    Ok(match splitting::begin(negated, u, words, links)? {
        Progress::Stands(state, cause) => Progress::Stands(Pending::Splitting(state), cause),
        Progress::Goes(state) => Progress::Goes(Pending::Splitting(state)),
        Progress::Made { first, second } => Progress::Made { first, second },
    })
}
