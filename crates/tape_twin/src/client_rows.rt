// A whole gate's words as the client looks at them: where a value is handed over the new shares of miners 1 and 2, else as they are.
ghost use Rattle.std.specs.Prelude.{◌≡◌, length, IfOk};
ghost use Rattle.proto_core.specs.declared.party.Number.{Number as NumberValue};
ghost use Rattle.proto_core.specs.Resharing.{reshared};
ghost use Rattle.reshare.specs.Resharing.{reshare_protocol};
ghost use Rattle.client_model.specs.ClientRows.{unshared, handing, leaving};
ghost use Rattle.joint_run.specs.Three.{each_of, joint};
ghost use Rattle.joint_run.specs.Exchanges.{protocol_of, IsSized};
ghost use Rattle.tape_twin.specs.Maps.{rows_map, exchange_rows};

use crate::made::MadeTapes;
use crate::way::Way;
use gates::RingKind;
use joint_run::{Exchange, Operands};
use proto_core::{AddRing, ShareRing, XorRing};
use std::alloc::{AllocError, Global};

/// u + a - a_p, word by word: a new share of these.
#[tactic(auto, using(proto_core::proofs::Each::each_steps), unfolding(proto_core::specs::Resharing::reshared))]
fn new_share<R: ShareRing>(
    alloc: Global,
    u: &[u64],
    own: &[u64],
    previous: &[u64],
) -> Result<Vec<u64>, AllocError>
    requires own { length own.now ≡ length u.now }
    requires previous { length previous.now ≡ length u.now }
    ensures words { IfOk result (λ share. share.items ≡ reshared R.ring (length u.now) u.now own.now previous.now) }
    ensures len { IfOk result (λ share. length share.items ≡ length u.now) }
{
    let mut share = Vec::new(alloc);
    for at in 0..u.len() {
        share.push(R::sub(R::add(u[at], own[at]), previous[at]))?;
    }
    Ok(share)
}

/// s - u + a_p, word by word: the words that made the new share s of u.
#[tactic(auto, using(proto_core::proofs::Each::each_steps), unfolding(client_model::specs::ClientRows::unshared))]
fn old_words<R: ShareRing>(
    alloc: Global,
    u: &[u64],
    share: &[u64],
    previous: &[u64],
) -> Result<Vec<u64>, AllocError>
    requires share { length share.now ≡ length u.now }
    requires previous { length previous.now ≡ length u.now }
    ensures words { IfOk result (λ words. words.items ≡ unshared R.ring (length u.now) u.now share.now previous.now) }
    ensures len { IfOk result (λ words. length words.items ≡ length u.now) }
{
    let mut words = Vec::new(alloc);
    for at in 0..u.len() {
        words.push(R::add(R::sub(share[at], u[at]), previous[at]))?;
    }
    Ok(words)
}

/// The words of miners 1 and 2 where a value is handed over. On the way back the first miner's are found first, and the second's by them.
fn handed_words<R: ShareRing>(
    alloc: Global,
    way: Way,
    operands: &Operands,
) -> Result<MadeTapes, AllocError>
    requires { IsSized (reshare_protocol R.ring) (length operands.now.u.first) (joint operands.now) }
    ensures words { IfOk result (λ made. (k : NumberValue) → each_of made k
        ≡ rows_map way (handing R.ring) (length operands.now.u.first) (joint operands.now) k) }
    ensures len { IfOk result (λ made. (k : NumberValue) → length (each_of made k) ≡ length operands.now.u.first) }
{
    let one = operands.first;
    let two = operands.second;
    let three = operands.third.words;
    let third = three.to_vec(alloc)?;
    match way {
        Way::ToView => Ok(MadeTapes {
            first: new_share::<R>(alloc, one.u, one.words, three)?,
            second: new_share::<R>(alloc, two.u, two.words, one.words)?,
            third,
        }),
        Way::FromView => {
            let first = old_words::<R>(alloc, one.u, one.words, three)?;
            let second = old_words::<R>(alloc, two.u, two.words, &first)?;
            Ok(MadeTapes {
                first,
                second,
                third,
            })
        }
    }
}

/// The same words.
fn same_words(
    alloc: Global,
    exchange: Exchange,
    operands: &Operands,
) -> Result<MadeTapes, AllocError>
    requires { IsSized (protocol_of exchange) (length operands.now.u.first) (joint operands.now) }
    ensures words { IfOk result (λ made. (k : NumberValue) → each_of made k ≡ (joint operands.now).words k) }
    ensures len { IfOk result (λ made. (k : NumberValue) →
        length (each_of made k) ≡ (protocol_of exchange).draws (length operands.now.u.first) k) }
{
    Ok(MadeTapes {
        first: operands.first.words.to_vec(alloc)?,
        second: operands.second.words.to_vec(alloc)?,
        third: operands.third.words.to_vec(alloc)?,
    })
}

/// The words of an exchange of any number of elements: those that what the client sees is made of, or on the way back those that are drawn.
pub(crate) fn client_words(
    alloc: Global,
    way: Way,
    exchange: Exchange,
    operands: &Operands,
) -> Result<MadeTapes, AllocError>
    requires { IsSized (protocol_of exchange) (length operands.now.u.first) (joint operands.now) }
    ensures words { IfOk result (λ made. (k : NumberValue) → each_of made k
        ≡ rows_map way (exchange_rows exchange) (length operands.now.u.first) (joint operands.now) k) }
    ensures len { IfOk result (λ made. (k : NumberValue) →
        length (each_of made k) ≡ (protocol_of exchange).draws (length operands.now.u.first) k) }
{
    match exchange {
        Exchange::Resharing(RingKind::Arithmetic) => handed_words::<AddRing>(alloc, way, operands),
        Exchange::Resharing(RingKind::Boolean) => handed_words::<XorRing>(alloc, way, operands),
        Exchange::Product(_)
        | Exchange::Splitting(_)
        | Exchange::Conversion
        | Exchange::Opening(_) => same_words(alloc, exchange, operands),
    }
}
