// One block of each protocol, by all three miners.
ghost use Rattle.std.specs.Prelude.{◌≡◌, ◌≤◌, true, false, length, OnOk};
ghost use Rattle.multiply.specs.Multiplying.{mul_protocol};
ghost use Rattle.open_result.specs.Opening.{open_protocol};
ghost use Rattle.reshare.specs.Resharing.{reshare_protocol};
ghost use Rattle.share_convert.specs.Converting.{conv_protocol};
ghost use Rattle.split_share.specs.Splitting.{split_protocol};
ghost use Rattle.joint_run.specs.Three.{joint};
ghost use Rattle.gate_exchanges.specs.Exchanges.{protocol_of, makes_two, IsSized};
ghost use Rattle.joint_run.specs.Adding.{AddsBlock};

use crate::outputs::Outputs;
use crate::own_operands::Operands;
use crate::transcript::Transcript;
use gate_exchanges::Exchange;
use gates::RingKind;
use lane_kernel::LaneRing;
use multiply::{Operands as Factors, multiply_together};
use open_result::open_together;
use proto_core::{AddRing, Block, Link, ShareRing, XorRing};
use reshare::reshare_together;
use share_convert::{Operand, convert_together};
use split_share::split_together;
use std::alloc::AllocError;

/// A block of a product.
fn add_product<R: LaneRing>(
    operands: &Operands,
    transcript: &mut Transcript,
    outputs: &mut Outputs,
) -> Result<(), AllocError>
    requires short { length operands.now.u.first ≤ 512 }
    requires sized { IsSized (mul_protocol R.ring) (length operands.now.u.first) (joint operands.now) }
    ensures { OnOk result (AddsBlock false (mul_protocol R.ring) (length operands.now.u.first) (joint operands.now)
        transcript.old transcript.new outputs.old outputs.new) }
{
    let u1 = Block::from_words(operands.first.u);
    let v1 = Block::from_words(operands.first.v);
    let u2 = Block::from_words(operands.second.u);
    let v2 = Block::from_words(operands.second.v);
    let u3 = Block::from_words(operands.third.u);
    let v3 = Block::from_words(operands.third.v);
    let (part1, part2, part3) = multiply_together::<R>(
        Factors {
            u: &u1,
            v: &v1,
            words: operands.first.words,
        },
        Factors {
            u: &u2,
            v: &v2,
            words: operands.second.words,
        },
        Factors {
            u: &u3,
            v: &v3,
            words: operands.third.words,
        },
    );
    let traffic = &mut transcript.traffic;
    traffic.push_two(Link::Link12, &part1.masks, &part1.factors)?;
    traffic.push_two(Link::Link23, &part2.masks, &part2.factors)?;
    traffic.push_two(Link::Link31, &part3.masks, &part3.factors)?;
    outputs.first.extend(
        part1.share.words(),
        part2.share.words(),
        part3.share.words(),
    )?;
    Ok(())
}

/// A block that is opened.
fn add_opening<R: ShareRing>(
    operands: &Operands,
    transcript: &mut Transcript,
    outputs: &mut Outputs,
) -> Result<(), AllocError>
    requires short { length operands.now.u.first ≤ 512 }
    requires sized { IsSized (open_protocol R.ring) (length operands.now.u.first) (joint operands.now) }
    ensures { OnOk result (AddsBlock false (open_protocol R.ring) (length operands.now.u.first) (joint operands.now)
        transcript.old transcript.new outputs.old outputs.new) }
{
    let (part1, part2, part3) = open_together::<R>(
        &Block::from_words(operands.first.u),
        &Block::from_words(operands.second.u),
        &Block::from_words(operands.third.u),
        operands.first.words,
        operands.second.words,
        operands.third.words,
    );
    let traffic = &mut transcript.traffic;
    traffic.push_two(Link::Link12, &part1.mask, &part1.to_next)?;
    traffic.push_two(Link::Link23, &part2.mask, &part2.to_next)?;
    traffic.push_two(Link::Link31, &part3.mask, &part3.to_next)?;
    traffic.push(Link::Link13, &part1.to_previous)?;
    traffic.push(Link::Link21, &part2.to_previous)?;
    traffic.push(Link::Link32, &part3.to_previous)?;
    transcript.opened.extend_from_slice(part1.opened.words())?;
    outputs.first.extend(
        part1.opened.words(),
        part2.opened.words(),
        part3.opened.words(),
    )?;
    Ok(())
}

/// A block that is shared anew.
fn add_resharing<R: ShareRing>(
    operands: &Operands,
    transcript: &mut Transcript,
    outputs: &mut Outputs,
) -> Result<(), AllocError>
    requires short { length operands.now.u.first ≤ 512 }
    requires sized { IsSized (reshare_protocol R.ring) (length operands.now.u.first) (joint operands.now) }
    ensures { OnOk result (AddsBlock false (reshare_protocol R.ring) (length operands.now.u.first) (joint operands.now)
        transcript.old transcript.new outputs.old outputs.new) }
{
    let (part1, part2, part3) = reshare_together::<R>(
        &Block::from_words(operands.first.u),
        &Block::from_words(operands.second.u),
        &Block::from_words(operands.third.u),
        operands.first.words,
        operands.second.words,
        operands.third.words,
    );
    let traffic = &mut transcript.traffic;
    traffic.push(Link::Link12, &part1.mask)?;
    traffic.push(Link::Link23, &part2.mask)?;
    traffic.push(Link::Link31, &part3.mask)?;
    outputs.first.extend(
        part1.share.words(),
        part2.share.words(),
        part3.share.words(),
    )?;
    Ok(())
}

/// A block of truth values turned into numbers.
fn add_conversion(
    operands: &Operands,
    transcript: &mut Transcript,
    outputs: &mut Outputs,
) -> Result<(), AllocError>
    requires short { length operands.now.u.first ≤ 512 }
    requires sized { IsSized conv_protocol (length operands.now.u.first) (joint operands.now) }
    ensures { OnOk result (AddsBlock false conv_protocol (length operands.now.u.first) (joint operands.now)
        transcript.old transcript.new outputs.old outputs.new) }
{
    let u1 = Block::from_words(operands.first.u);
    let u2 = Block::from_words(operands.second.u);
    let u3 = Block::from_words(operands.third.u);
    let made = convert_together(
        Operand {
            u: &u1,
            words: operands.first.words,
        },
        Operand {
            u: &u2,
            words: operands.second.words,
        },
        Operand {
            u: &u3,
            words: operands.third.words,
        },
    );
    let traffic = &mut transcript.traffic;
    traffic.push(Link::Link12, &made.sent12)?;
    traffic.push(Link::Link13, &made.sent13)?;
    traffic.push(Link::Link23, &made.sent23)?;
    traffic.push(Link::Link31, &made.sent31)?;
    traffic.push(Link::Link32, &made.sent32)?;
    outputs.first.extend(
        made.share1.words(),
        made.share2.words(),
        made.share3.words(),
    )?;
    Ok(())
}

/// A block of numbers split into two words each.
fn add_splitting(
    negated: bool,
    operands: &Operands,
    transcript: &mut Transcript,
    outputs: &mut Outputs,
) -> Result<(), AllocError>
    requires short { length operands.now.u.first ≤ 512 }
    requires sized { IsSized (split_protocol negated) (length operands.now.u.first) (joint operands.now) }
    ensures { OnOk result (AddsBlock true (split_protocol negated) (length operands.now.u.first) (joint operands.now)
        transcript.old transcript.new outputs.old outputs.new) }
{
    let made = split_together(
        &Block::from_words(operands.first.u),
        &Block::from_words(operands.second.u),
        &Block::from_words(operands.third.u),
        negated,
        operands.first.words,
    );
    let traffic = &mut transcript.traffic;
    traffic.push(Link::Link12, &made.sent12)?;
    traffic.push(Link::Link13, &made.sent13)?;
    outputs.first.extend(
        made.shares1.0.words(),
        made.shares2.0.words(),
        made.shares3.0.words(),
    )?;
    outputs.second.extend(
        made.shares1.1.words(),
        made.shares2.1.words(),
        made.shares3.1.words(),
    )?;
    Ok(())
}

/// One block of at most 512 elements of an exchange: its messages and opened words go to the transcript, the new shares after
/// the outputs. With no memory left both may have a part of it.
pub fn add_block(
    exchange: Exchange,
    operands: &Operands,
    transcript: &mut Transcript,
    outputs: &mut Outputs,
) -> Result<(), AllocError>
    requires short { length operands.now.u.first ≤ 512 }
    requires sized { IsSized (protocol_of exchange) (length operands.now.u.first) (joint operands.now) }
    ensures { OnOk result (AddsBlock (makes_two exchange) (protocol_of exchange) (length operands.now.u.first) (joint operands.now)
        transcript.old transcript.new outputs.old outputs.new) }
{
    match exchange {
        Exchange::Product(RingKind::Arithmetic) => add_product::<AddRing>(
            operands, transcript, outputs,
        ),
        Exchange::Product(RingKind::Boolean) => add_product::<XorRing>(
            operands, transcript, outputs,
        ),
        Exchange::Splitting(negated) => add_splitting(negated, operands, transcript, outputs),
        Exchange::Conversion => add_conversion(operands, transcript, outputs),
        Exchange::Opening(RingKind::Arithmetic) => add_opening::<AddRing>(
            operands, transcript, outputs,
        ),
        Exchange::Opening(RingKind::Boolean) => add_opening::<XorRing>(
            operands, transcript, outputs,
        ),
        Exchange::Resharing(RingKind::Arithmetic) => add_resharing::<AddRing>(
            operands, transcript, outputs,
        ),
        Exchange::Resharing(RingKind::Boolean) => add_resharing::<XorRing>(
            operands, transcript, outputs,
        ),
    }
}
