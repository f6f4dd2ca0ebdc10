ghost use Rattle.std.specs.Prelude.{◌≡◌, ◌-◌, ◌*◌, ◌<◌, ◌≤◌, ◌^◌, length, IfOk};

use std::alloc::{AllocError, Global};

/// What one miner begins with: its shares of both factors, n words each, and a tape of 3n words.
#[derive(Drop)]
pub struct Held {
    pub u: Vec<u64>,
    pub v: Vec<u64>,
    tape: Vec<u64>,
    pub ghost factors: { length v.items ≡ length u.items },
    pub ghost masks: { length tape.items ≡ 3 * length u.items },
}

/// The shares of some elements, and their part of the tape.
#[derive(Drop)]
pub struct Part<'a> {
    pub u: &'a [u64],
    pub v: &'a [u64],
    pub tape: &'a [u64],
}

// The word of a number, well spread.
fn word(k: u64) -> u64 {
    k.wrapping_mul(0x9E37_79B9_7F4A_7C15).rotate_left(17)
}

// So many words of one party, from numbers that are `step` apart.
fn words_of(alloc: Global, count: usize, step: u64, party: u64) -> Result<Vec<u64>, AllocError>
    ensures { IfOk result (λ words. length words.items ≡ count) }
{
    let mut words = Vec::with_capacity(alloc, count)?;
    for at in 0..count {
        words.push(word(step.wrapping_mul(at as u64).wrapping_add(party)))?;
    }
    Ok(words)
}

impl Held {
    /// The shares and the tape of a party, for n elements.
    pub fn new(alloc: Global, party: u64, n: usize) -> Result<Held, AllocError>
        requires { n < 2 ^ 40 }
        ensures { IfOk result (λ held. length held.u.items ≡ n) }
    {
        Ok(Held {
            u: words_of(alloc, n, 7, party)?,
            v: words_of(alloc, n, 11, party)?,
            tape: words_of(alloc, 3 * n, 3, party)?,
        })
    }

    /// What there is of the elements from one to before another.
    pub fn part(&self, from: usize, to: usize) -> Part<'_>
        requires ordered { from ≤ to }
        requires within { to ≤ length self.now.u.items }
        ensures u { length result.u.now ≡ to - from }
        ensures v { length result.v.now ≡ to - from }
        ensures tape { length result.tape.now ≡ 3 * (to - from) }
    {
        Part {
            u: &self.u[from..to],
            v: &self.v[from..to],
            tape: &self.tape[3 * from..3 * to],
        }
    }
}
