// New shares of an old value.
use crate::lines::{add_cause, add_words, line};
use proto_core::{AddRing, Block, Msg, P1, P2, P3, ShareRing, XorRing};
use reshare::{Part, Reshare, reshare_together};
use row_files::Lines;

const TOP: u64 = 18_446_744_073_709_551_615;

fn add_part<R, P>(lines: &mut Lines, part: &Part<R, P>) {
    add_words(lines, part.mask.words());
    add_words(lines, part.share.words());
}

// The mask that each miner sends, and its new share.
fn tell_parts<R>(
    lines: &mut Lines,
    first: &Part<R, P1>,
    second: &Part<R, P2>,
    third: &Part<R, P3>,
) {
    lines.add("reshare");
    add_part(lines, first);
    add_part(lines, second);
    add_part(lines, third);
    lines.add("\n");
}

// One element by three miners, of which each has a share and a mask.
fn tell_three<R: ShareRing>(lines: &mut Lines, held: [[u64; 2]; 3]) {
    let (first, second, third) = reshare_together::<R>(
        &Block::from_words(&[held[0][0]]),
        &Block::from_words(&[held[1][0]]),
        &Block::from_words(&[held[2][0]]),
        &[held[0][1]],
        &[held[1][1]],
        &[held[2][1]],
    );
    tell_parts(lines, &first, &second, &third);
}

// Two messages of a wrong length, and then one of the right one.
fn tell_wrong_lengths(lines: &mut Lines) {
    let u: Block<AddRing, P1> = Block::from_words(&[5, 1]);
    let (state, mask) = Reshare::start(&u, &[7, 0]);
    line(lines, "reshare", mask.words());
    let Err(refused) = state.got(&Msg::from_words(&[9])) else {
        return lines.add("one word is taken for two\n");
    };
    add_cause(lines, refused.cause);
    let Err(refused) = refused.state.got(&Msg::from_words(&[9, 9, 9])) else {
        return lines.add("three words are taken for two\n");
    };
    add_cause(lines, refused.cause);
    match refused.state.got(&Msg::from_words(&[2, TOP])) {
        Ok(share) => line(lines, "", share.words()),
        Err(refused) => add_cause(lines, refused.cause),
    }
}

/// The lines of three miners in both rings, and of messages of a wrong length.
pub fn tell(lines: &mut Lines) {
    tell_three::<AddRing>(lines, [[0, 0], [0, 0], [42, 0]]);
    tell_three::<AddRing>(lines, [[5, 7], [6, 9], [TOP, 2]]);
    tell_three::<XorRing>(lines, [[0, 0], [0, 0], [42, 0]]);
    tell_three::<XorRing>(lines, [[1, 0], [2, 0], [3, TOP]]);
    tell_wrong_lengths(lines);
}
