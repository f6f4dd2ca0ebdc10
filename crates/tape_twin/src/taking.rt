// Words off the front of the tapes.
ghost use Rattle.std.specs.Prelude.{◌≡◌, ◌<◌, ◌≤◌, length, take, drop, IfOk, IfErr, OnOk};
ghost use Rattle.proto_core.specs.declared.party.Number.{Number as NumberValue};
ghost use Rattle.joint_run.specs.Three.{each_of};
ghost use Rattle.joint_run.specs.Exchanges.{protocol_of};

use joint_run::{Exchange, JointErr, Tapes};
use proto_core::Number;

/// So many words from the front of a miner's tape, and what is after them; an error where the tape has fewer.
fn front_of<'a>(
    place: usize,
    miner: Number,
    need: u128,
    tape: &'a [u64],
) -> Result<(&'a [u64], &'a [u64]), JointErr>
    ensures front { IfOk result (λ cut. cut.0.now ≡ take need tape.now) }
    ensures behind { IfOk result (λ cut. cut.1.now ≡ drop need tape.now) }
    ensures reach { OnOk result (need ≤ length tape.now) }
    ensures short { IfErr result (λ _. length tape.now < need) }
{
    let have = tape.len();
    if need > have as u128 {
        return Err(JointErr::TapeEnds {
            place,
            miner,
            need,
            have,
        });
    }
    Ok(tape.split_at(need as usize))
}

/// Takes the words that each miner draws for n elements of the exchange at this place off its tape. Where a tape has fewer, all stay.
pub(crate) fn take_words<'a>(
    place: usize,
    exchange: Exchange,
    n: usize,
    rest: &mut Tapes<'a>,
) -> Result<Tapes<'a>, JointErr>
    ensures drawn { IfOk result (λ words. (k : NumberValue) → each_of words k ≡ take ((protocol_of exchange).draws n k) (each_of rest.old k)) }
    ensures left { OnOk result ((k : NumberValue) → each_of rest.new k ≡ drop ((protocol_of exchange).draws n k) (each_of rest.old k)) }
    ensures reach { OnOk result ((k : NumberValue) → (protocol_of exchange).draws n k ≤ length (each_of rest.old k)) }
    ensures short { IfErr result (λ _. ((k : NumberValue) → (protocol_of exchange).draws n k ≤ length (each_of rest.old k)) → ⊥) }
{
    let one = Number::One;
    let two = Number::Two;
    let three = Number::Three;
    let (first, first_left) = front_of(place, one, exchange.draws(n, one), rest.first)?;
    let (second, second_left) = front_of(place, two, exchange.draws(n, two), rest.second)?;
    let (third, third_left) = front_of(place, three, exchange.draws(n, three), rest.third)?;
    rest.first = first_left;
    rest.second = second_left;
    rest.third = third_left;
    Ok(Tapes {
        first,
        second,
        third,
    })
}
