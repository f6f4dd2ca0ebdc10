// Bits that become numbers.
use crate::lines::{add_cause, add_words, line};
use proto_core::{Block, Msg, P2, XorRing};
use row_files::Lines;
use share_convert::{Conv, Conversion, First, Operand, convert_together};

// What is sent on the links 12, 13, 23, 32 and 31, and the shares.
fn tell_made(lines: &mut Lines, made: &Conversion) {
    lines.add("convert");
    add_words(lines, made.sent12.words());
    add_words(lines, made.sent13.words());
    add_words(lines, made.sent23.words());
    add_words(lines, made.sent32.words());
    add_words(lines, made.sent31.words());
    add_words(lines, made.share1.words());
    add_words(lines, made.share2.words());
    line(lines, "", made.share3.words());
}

// One element by three miners, the first with the words b, e, m, a.
fn tell_three(lines: &mut Lines, shares: [u64; 3], drawn: [u64; 4], masks: [u64; 2]) {
    let made = convert_together(
        Operand {
            u: &Block::from_words(&[shares[0]]),
            words: &drawn,
        },
        Operand {
            u: &Block::from_words(&[shares[1]]),
            words: &[masks[0]],
        },
        Operand {
            u: &Block::from_words(&[shares[2]]),
            words: &[masks[1]],
        },
    );
    tell_made(lines, &made);
}

// The second miner refuses a short message, two that have a word in place of a bit, and takes the right one between them.
fn tell_refused(lines: &mut Lines) {
    let u: Block<XorRing, P2> = Block::from_words(&[6, 1]);
    let state = Conv::<P2, First>::start(&u, &[30, 31]);
    let Err(refused) = state.got12(&Msg::from_words(&[2; 5])) else {
        return lines.add("five words are taken for six\n");
    };
    add_cause(lines, refused.cause);
    let Err(refused) = refused.state.got12(&Msg::from_words(&[9, 9, 1, 2, 3, 9])) else {
        return lines.add("2 is taken for a bit\n");
    };
    add_cause(lines, refused.cause);
    let Ok((state, reply)) = refused
        .state
        .got12(&Msg::from_words(&[100, 7, 1, 0, 1000, 1]))
    else {
        return lines.add("no bits are taken\n");
    };
    line(lines, "", reply.words());
    line(lines, "convert", &[state.size() as u64]);
    match state.got32(&Msg::from_words(&[1, 5])) {
        Ok(share) => line(lines, "", share.words()),
        Err(refused) => add_cause(lines, refused.cause),
    }
}

/// The lines of a bit that is dealt with zeros, of shares of which only the lowest bits count, and of messages that are refused.
pub fn tell(lines: &mut Lines) {
    tell_three(lines, [0, 0, 1], [3, 2, 10, 0], [0, 0]);
    tell_three(lines, [5, 6, 8], [4, 7, 100, 1000], [30, 2]);
    tell_refused(lines);
    lines.add("\n");
}
