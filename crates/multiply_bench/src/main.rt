//! Three miners in one process multiply vectors in blocks of 512 elements.
//!
//! Words: how many elements (1,048,576 where none is given), and then `quiet` where no time is to be printed.
#![tactic(auto)]

ghost use Rattle.std.specs.Prelude.{◌≡◌, ◌+◌, ◌^◌, ◌<◌, ◌≤◌, length, IfOk};

mod held;

use crate::held::Held;
use multiply::MulWords;
use proto_core::{AddRing, Messages};
use std::alloc::{AllocError, Global};
use std::time::{Duration, Instant};
use std::{env, io};

const BLOCK: usize = 512;

const USUAL: usize = 1 << 20;

const MOST: usize = 1 << 30;

// What the three miners begin with, for n elements.
#[derive(Drop)]
struct Miners {
    n: usize,
    first: Held,
    second: Held,
    third: Held,
    ghost first_has: { length first.u.items ≡ n },
    ghost second_has: { length second.u.items ≡ n },
    ghost third_has: { length third.u.items ≡ n },
}

impl Miners {
    fn new(alloc: Global, n: usize) -> Result<Miners, AllocError>
        requires { n < 2 ^ 40 }
    {
        Ok(Miners {
            n,
            first: Held::new(alloc, 0, n)?,
            second: Held::new(alloc, 1, n)?,
            third: Held::new(alloc, 2, n)?,
        })
    }
}

// The three miners' shares of the products.
#[derive(Drop)]
struct Products {
    first: Vec<u64>,
    second: Vec<u64>,
    third: Vec<u64>,
}

// Takes the masks that were sent.
fn cross(miner: &mut MulWords, sent: &Messages) {
    if let Some(words) = sent.lent(0)
        && words.len() == 3 * miner.size()
    {
        miner.cross::<AddRing>(words);
    }
}

// Takes the factors that were sent.
fn product(alloc: Global, miner: MulWords, sent: &Messages) -> Vec<u64> {
    if let Some(words) = sent.lent(1)
        && words.len() == 2 * miner.size()
    {
        return miner.into_product::<AddRing>(words);
    }
    Vec::new(alloc)
}

// Sends the factors.
fn send(miner: &MulWords, sent: &mut Messages) -> Result<(), AllocError> {
    let (u, v) = miner.factors();
    sent.push_two(u, v)
}

// One block, from one element to before another.
fn multiply_block(
    alloc: Global,
    miners: &Miners,
    from: usize,
    to: usize,
    products: &mut Products,
) -> Result<(), AllocError>
    requires ordered { from ≤ to }
    requires short { to ≤ from + 512 }
    requires within { to ≤ miners.now.n }
{
    let first = miners.first.part(from, to);
    let second = miners.second.part(from, to);
    let third = miners.third.part(from, to);
    let mut sent1 = Messages::new(alloc);
    let mut sent2 = Messages::new(alloc);
    let mut sent3 = Messages::new(alloc);
    let mut miner1 = MulWords::masked::<AddRing>(alloc, first.u, first.v, first.tape)?;
    let mut miner2 = MulWords::masked::<AddRing>(alloc, second.u, second.v, second.tape)?;
    let mut miner3 = MulWords::masked::<AddRing>(alloc, third.u, third.v, third.tape)?;
    sent1.push_words(first.tape)?;
    sent2.push_words(second.tape)?;
    sent3.push_words(third.tape)?;
    cross(&mut miner1, &sent3);
    cross(&mut miner2, &sent1);
    cross(&mut miner3, &sent2);
    send(&miner1, &mut sent1)?;
    send(&miner2, &mut sent2)?;
    send(&miner3, &mut sent3)?;
    products
        .first
        .extend_from_slice(&product(alloc, miner1, &sent3))?;
    products
        .second
        .extend_from_slice(&product(alloc, miner2, &sent1))?;
    products
        .third
        .extend_from_slice(&product(alloc, miner3, &sent2))
}

// The products of all elements, in blocks of 512.
fn multiply_all(alloc: Global, miners: &Miners) -> Result<Products, AllocError> {
    let n = miners.n;
    let mut products = Products {
        first: Vec::with_capacity(alloc, n)?,
        second: Vec::with_capacity(alloc, n)?,
        third: Vec::with_capacity(alloc, n)?,
    };
    let mut from = 0;
    while from < n {
        let to = (n - from).min(BLOCK) + from;
        multiply_block(alloc, miners, from, to, &mut products)?;
        from = to;
    }
    Ok(products)
}

// The sum of three shares, where all are there.
fn sum_at(first: &[u64], second: &[u64], third: &[u64], at: usize) -> Option<u64> {
    let (x, y, z) = (first.get(at)?, second.get(at)?, third.get(at)?);
    Some(x.wrapping_add(*y).wrapping_add(*z))
}

// Whether the shares of an element add up to the product of its factors.
fn is_right(miners: &Miners, products: &Products, at: usize) -> bool {
    let Miners {
        first,
        second,
        third,
        ..
    } = miners;
    let u = sum_at(&first.u, &second.u, &third.u, at);
    let v = sum_at(&first.v, &second.v, &third.v, at);
    let product = sum_at(&products.first, &products.second, &products.third, at);
    match (product, u, v) {
        (Some(product), Some(u), Some(v)) => product == u.wrapping_mul(v),
        _ => false,
    }
}

// How many of the elements are not right.
fn wrong(miners: &Miners, products: &Products) -> usize {
    let mut wrong = 0;
    for at in 0..miners.n {
        if !is_right(miners, products, at) {
            wrong += 1;
        }
    }
    wrong
}

// How many elements, and whether no time is to be printed.
fn asked(rt: &HostRuntime) -> io::Result<(usize, bool)>
    ensures { IfOk result (λ it. it.0 < 2 ^ 40) }
{
    let mut words = env::args(rt)?;
    let n = match words.nth(1) {
        Some(word) => word.parse::<usize>().unwrap_or(USUAL).min(MOST),
        None => USUAL,
    };
    Ok((n, words.next().is_some()))
}

// How many of the miners' products are wrong, and how long all took.
fn timed(rt: &HostRuntime, miners: &Miners) -> io::Result<(usize, Duration)> {
    let start = Instant::now(rt)?;
    let products = multiply_all(rt.alloc(), miners)?;
    let took = start.elapsed(rt)?;
    Ok((wrong(miners, &products), took))
}

// The same, of miners for so many elements.
fn measured(rt: &HostRuntime, n: usize) -> io::Result<(usize, Duration)>
    requires { n < 2 ^ 40 }
{
    let miners = Miners::new(rt.alloc(), n)?;
    timed(rt, &miners)
}

fn main(rt: HostRuntime) -> io::Result<()> {
    let (n, quiet) = asked(&rt)?;
    let (wrong, took) = measured(&rt, n)?;
    println!(&rt; "elements {n} wrong {wrong}")?;
    if !quiet {
        println!(&rt; "nanoseconds {}", took.as_nanos())?;
    }
    Ok(())
}
