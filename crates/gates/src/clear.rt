// The plain, slow evaluation of gates on clear values.
ghost use Rattle.std.specs.Prelude.{◌≡◌, ◌++◌, OnOk, IfOk};
ghost use Rattle.gates.specs.Clear.{clear_value};
ghost use Rattle.gates.specs.Evaluated.{evaluated, made};

use crate::bits::{bit_again, bit_at, bits_followed, one_bit_given, packed_bits, single_bits};
use crate::clear_words::{
    complements, differences, each_repeated, first_word, joined, low_bits, part, products,
    repeated, shifted_down, shifted_up, sums, tiled, total, totals, with_word,
};
use crate::gate::Gate;
use crate::ring_kind::RingKind;
use crate::values::Values;
use crate::words::Words;
use proto_core::{AddRing, XorRing};
use std::alloc::{AllocError, Global};

impl Gate {
    /// The clear value that the gate makes, of the private inputs and of the values before it. A `Split`, which makes two, has
    /// no words here.
    pub fn clear_value(
        &self,
        alloc: Global,
        inputs: &Values,
        values: &Values,
    ) -> Result<Words, AllocError>
        ensures { IfOk result (λ words. words ≡ clear_value inputs.now values.now self.now) }
    {
        match self {
            Gate::Input { number } => joined(alloc, inputs.value(*number), &[]),
            Gate::Const { list } => list.copy(alloc),
            Gate::Add { left, right } => {
                sums::<AddRing>(alloc, values.value(*left), values.value(*right))
            }
            Gate::Sub { left, right } => {
                differences::<AddRing>(alloc, values.value(*left), values.value(*right))
            }
            Gate::MulPub {
                ring,
                operand,
                list,
            } => match ring {
                RingKind::Arithmetic => {
                    products::<AddRing>(alloc, values.value(*operand), list.as_slice())
                }
                RingKind::Boolean => {
                    products::<XorRing>(alloc, values.value(*operand), list.as_slice())
                }
            },
            Gate::Mul { left, right } => {
                products::<AddRing>(alloc, values.value(*left), values.value(*right))
            }
            Gate::Xor { left, right } => {
                sums::<XorRing>(alloc, values.value(*left), values.value(*right))
            }
            Gate::And { left, right } => {
                products::<XorRing>(alloc, values.value(*left), values.value(*right))
            }
            Gate::Not { operand } => complements(alloc, values.value(*operand)),
            Gate::Shl { operand, count } => shifted_up(alloc, values.value(*operand), *count),
            Gate::Shr { operand, count } => shifted_down(alloc, values.value(*operand), *count),
            Gate::Low { operand } => low_bits(alloc, values.value(*operand)),
            Gate::Cat { left, right } => joined(alloc, values.value(*left), values.value(*right)),
            Gate::Part {
                operand,
                from,
                count,
            } => part(
                alloc,
                values.value(*operand),
                *from as usize,
                *count as usize,
            ),
            Gate::Put {
                operand,
                index,
                element,
            } => with_word(
                alloc,
                values.value(*operand),
                *index as usize,
                first_word(values.value(*element)),
            ),
            Gate::Rep { operand, count } => repeated(
                alloc,
                first_word(values.value(*operand)),
                *count as usize,
            ),
            Gate::Pack { operand } => packed_bits(alloc, values.value(*operand)),
            Gate::Unpack { operand, count } => {
                single_bits(alloc, values.value(*operand), *count)
            }
            Gate::RepBit { operand, count } => bit_again(alloc, values.value(*operand), *count),
            Gate::PartBit { operand, index } => bit_at(alloc, values.value(*operand), *index),
            Gate::PutBit {
                operand,
                index,
                element,
            } => one_bit_given(
                alloc,
                values.value(*operand),
                *index,
                values.value(*element),
            ),
            Gate::CatBit {
                left,
                left_count,
                right,
                right_count,
            } => bits_followed(
                alloc,
                values.value(*left),
                *left_count,
                values.value(*right),
                *right_count,
            ),
            Gate::Sum { operand } => repeated(alloc, total(values.value(*operand)), 1),
            Gate::Stretch { operand, count } => {
                each_repeated(alloc, values.value(*operand), *count as usize)
            }
            Gate::Tile { operand, count } => tiled(alloc, values.value(*operand), *count as usize),
            Gate::SumEach {
                operand,
                size,
                count,
            } => totals(
                alloc,
                values.value(*operand),
                *size as usize,
                *count as usize,
            ),
            Gate::Split { .. } => Ok(Words::new(Vec::new(alloc))),
            Gate::Conv { operand } => low_bits(alloc, values.value(*operand)),
            Gate::Open { operand, .. } => joined(alloc, values.value(*operand), &[]),
            Gate::Result { operand, .. } => joined(alloc, values.value(*operand), &[]),
        }
    }
}

/// The values of one gate after those that are there; a `Split` takes `mask` for each word of its second value.
fn push_made(
    alloc: Global,
    mask: u64,
    inputs: &Values,
    values: &mut Values,
    gate: &Gate,
) -> Result<(), AllocError>
    ensures { OnOk result (values.new ≡ values.old ++ made mask inputs.now values.old gate.now) }
{
    match gate {
        Gate::Split { operand, negated } => {
            let us = values.value(*operand);
            let masks = repeated(alloc, mask, us.len())?;
            let rest = if *negated {
                sums::<AddRing>(alloc, us, masks.as_slice())?
            } else {
                differences::<AddRing>(alloc, us, masks.as_slice())?
            };
            values.push(rest)?;
            values.push(masks)?;
        }
        _ => {
            let words = gate.clear_value(alloc, inputs, values)?;
            values.push(words)?;
        }
    }
    Ok(())
}

/// The clear values of gates, made one after another after those that are there. Each `Split` takes `mask` for the words of
/// its second value. Gates that don't suit the values before them get what the definition of a clear value makes of them.
pub fn evaluated(
    alloc: Global,
    mask: u64,
    inputs: &Values,
    before: Values,
    gates: &[Gate],
) -> Result<Values, AllocError>
    ensures { IfOk result (λ values. values ≡ evaluated mask inputs.now before gates.now) }
{
    let mut values = before;
    for gate in gates {
        push_made(alloc, mask, inputs, &mut values, gate)?;
    }
    Ok(values)
}
