// Products in both rings.
use crate::lines::{add_cause, add_words, line};
use lane_kernel::LaneRing;
use multiply::{Mul, Operands, Part, multiply_together};
use proto_core::{AddRing, Block, Msg, P1, P2, P3, XorRing};
use row_files::Lines;

const TOP: u64 = 18_446_744_073_709_551_615;

fn add_part<R, P>(lines: &mut Lines, part: &Part<R, P>) {
    add_words(lines, part.factors.words());
    add_words(lines, part.share.words());
}

// Of each miner both factors that it sends, and its share of the product.
fn tell_parts<R>(
    lines: &mut Lines,
    first: &Part<R, P1>,
    second: &Part<R, P2>,
    third: &Part<R, P3>,
) {
    lines.add("multiply");
    add_part(lines, first);
    add_part(lines, second);
    add_part(lines, third);
    lines.add("\n");
}

// One element by three miners.
fn tell_three<R: LaneRing>(lines: &mut Lines, u: [u64; 3], v: [u64; 3], words: [[u64; 3]; 3]) {
    let (first, second, third) = multiply_together::<R>(
        Operands {
            u: &Block::from_words(&[u[0]]),
            v: &Block::from_words(&[v[0]]),
            words: &words[0],
        },
        Operands {
            u: &Block::from_words(&[u[1]]),
            v: &Block::from_words(&[v[1]]),
            words: &words[1],
        },
        Operands {
            u: &Block::from_words(&[u[2]]),
            v: &Block::from_words(&[v[2]]),
            words: &words[2],
        },
    );
    tell_parts(lines, &first, &second, &third);
}

// A short message, the right one, one that is too long, and the right one.
fn tell_wrong_lengths(lines: &mut Lines) {
    let u: Block<AddRing, P1> = Block::from_words(&[5, 1]);
    let v = Block::from_words(&[2, 3]);
    let (state, masks) = Mul::start(&u, &v, &[1, 2, 3, 4, 5, 6]);
    line(lines, "multiply", &[state.size() as u64]);
    add_words(lines, masks.words());
    let Err(refused) = state.got(&Msg::from_words(&[9; 5])) else {
        return lines.add("five masks are taken for six\n");
    };
    add_cause(lines, refused.cause);
    let Ok((state, factors)) = refused.state.got(&Msg::from_words(&[1; 6])) else {
        return lines.add("no masks are taken\n");
    };
    line(lines, "", factors.words());
    let Err(refused) = state.got(&Msg::from_words(&[9; 6])) else {
        return lines.add("six factors are taken for four\n");
    };
    add_cause(lines, refused.cause);
    match refused.state.got(&Msg::from_words(&[1, 0, 0, 2])) {
        Ok(share) => line(lines, "", share.words()),
        Err(refused) => add_cause(lines, refused.cause),
    }
}

// No elements.
fn tell_none(lines: &mut Lines) {
    let none: Block<XorRing, P2> = Block::new();
    let (state, masks) = Mul::start(&none, &none, &[]);
    add_words(lines, masks.words());
    let Ok((state, factors)) = state.got(&Msg::new()) else {
        return lines.add("no empty masks are taken\n");
    };
    add_words(lines, factors.words());
    match state.got(&Msg::new()) {
        Ok(share) => line(lines, "", share.words()),
        Err(refused) => add_cause(lines, refused.cause),
    }
}

fn count_of_27(words: &[u64]) -> usize {
    words.iter().filter(|word| **word == 27).count()
}

// As many elements as a block has, each 3 times 3, by a miner that is sent what it sends: how many, and how many are 27.
fn tell_full_block(lines: &mut Lines) {
    let full: Block<AddRing, P2> = Block::from_words(&[3; 512]);
    let (state, masks) = Mul::start(&full, &full, &[1; 1536]);
    let Ok((state, factors)) = state.got(&masks) else {
        return lines.add("no full masks are taken\n");
    };
    let Ok(share) = state.got(&factors) else {
        return lines.add("no full factors are taken\n");
    };
    let count = count_of_27(share.words()) as u64;
    line(lines, "full block", &[share.len() as u64, count]);
}

/// The lines of three miners in both rings, of messages of a wrong length, of no elements and of a full block.
pub fn tell(lines: &mut Lines) {
    let drawn = [[10, 20, 30], [1, 2, 3], [7, 8, 9]];
    tell_three::<AddRing>(lines, [0, 0, 6], [0, 0, 7], [[0; 3]; 3]);
    tell_three::<AddRing>(lines, [1, 2, 3], [4, 5, 6], drawn);
    tell_three::<XorRing>(lines, [1, 2, 3], [4, 5, 6], drawn);
    tell_three::<XorRing>(lines, [0, 0, TOP], [0, 0, 5], [[0; 3]; 3]);
    tell_wrong_lengths(lines);
    tell_none(lines);
    tell_full_block(lines);
}
