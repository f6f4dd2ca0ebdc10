// Numbers that are split into two words.
use crate::lines::{add_cause, add_words, line};
use proto_core::{AddRing, Block, Msg, P2, P3, XorRing};
use row_files::Lines;
use split_share::{Split, Splitting, Waiting, split_together};

const TOP: u64 = 18_446_744_073_709_551_615;

fn add_pair<P>(lines: &mut Lines, pair: &(Block<XorRing, P>, Block<XorRing, P>)) {
    add_words(lines, pair.0.words());
    add_words(lines, pair.1.words());
}

// Both messages, and the two words of each miner.
fn tell_made(lines: &mut Lines, made: &Splitting) {
    lines.add("split");
    add_words(lines, made.sent12.words());
    add_words(lines, made.sent13.words());
    add_pair(lines, &made.shares1);
    add_pair(lines, &made.shares2);
    add_pair(lines, &made.shares3);
    lines.add("\n");
}

// One number by three miners.
fn tell_three(lines: &mut Lines, shares: [u64; 3], negated: bool, word: u64) {
    let made = split_together(
        &Block::from_words(&[shares[0]]),
        &Block::from_words(&[shares[1]]),
        &Block::from_words(&[shares[2]]),
        negated,
        &[word],
    );
    tell_made(lines, &made);
}

// The second miner takes no message that is too long.
fn tell_second(lines: &mut Lines) {
    let u: Block<AddRing, P2> = Block::from_words(&[6, 7]);
    let state = Split::<P2, Waiting>::start(&u, true);
    line(lines, "split by 2", &[state.size() as u64]);
    let Err(refused) = state.got12(&Msg::from_words(&[1, 2, 3])) else {
        return lines.add("three words are taken for two\n");
    };
    add_cause(lines, refused.cause);
    match refused.state.got12(&Msg::from_words(&[1, TOP])) {
        Ok(pair) => add_pair(lines, &pair),
        Err(refused) => add_cause(lines, refused.cause),
    }
}

// Nor does the third.
fn tell_third(lines: &mut Lines) {
    let u: Block<AddRing, P3> = Block::from_words(&[6, 7]);
    let state = Split::<P3, Waiting>::start(&u, true);
    let Err(refused) = state.got13(&Msg::from_words(&[1, 2, 3])) else {
        return lines.add("three words are taken for two\n");
    };
    add_cause(lines, refused.cause);
    match refused.state.got13(&Msg::from_words(&[1, TOP])) {
        Ok(pair) => add_pair(lines, &pair),
        Err(refused) => add_cause(lines, refused.cause),
    }
}

/// The lines of numbers that are the sum or the difference of their words, and of messages of a wrong length.
pub fn tell(lines: &mut Lines) {
    tell_three(lines, [5, 6, 2], false, 20);
    tell_three(lines, [5, 6, 2], true, 20);
    tell_three(lines, [0, 0, TOP], false, 0);
    tell_three(lines, [0, 0, TOP], true, 0);
    tell_second(lines);
    lines.add("\nsplit by 3");
    tell_third(lines);
    lines.add("\n");
}
