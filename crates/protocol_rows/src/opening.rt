// Values that are opened, and results that are handed over.
use crate::lines::{add_cause, add_words, line};
use open_result::{Open, Part, Result3, open_together};
use proto_core::{AddRing, Block, Msg, P1, P3, ShareRing, XorRing};
use row_files::Lines;

const TOP: u64 = 18_446_744_073_709_551_615;

// A miner's mask, its share to the next and to the previous miner, and what it opens.
fn add_part(lines: &mut Lines, part: &Part) {
    add_words(lines, part.mask.words());
    add_words(lines, part.to_next.words());
    add_words(lines, part.to_previous.words());
    add_words(lines, part.opened.words());
}

fn tell_parts(lines: &mut Lines, first: &Part, second: &Part, third: &Part) {
    lines.add("open");
    add_part(lines, first);
    add_part(lines, second);
    add_part(lines, third);
    lines.add("\n");
}

// One element by three miners, of which each has a share and a mask.
fn tell_three<R: ShareRing>(lines: &mut Lines, held: [[u64; 2]; 3]) {
    let (first, second, third) = open_together::<R>(
        &Block::from_words(&[held[0][0]]),
        &Block::from_words(&[held[1][0]]),
        &Block::from_words(&[held[2][0]]),
        &[held[0][1]],
        &[held[1][1]],
        &[held[2][1]],
    );
    tell_parts(lines, &first, &second, &third);
}

// A short message at each of the first two stages, each before the right one, and an empty one at the last.
fn tell_wrong_lengths(lines: &mut Lines) {
    let short = Msg::from_words(&[9]);
    let u: Block<AddRing, P1> = Block::from_words(&[5, 1]);
    let (state, mask) = Open::start(&u, &[7, 0]);
    line(lines, "open", mask.words());
    let Err(refused) = state.got(&short) else {
        return lines.add("a short mask is taken\n");
    };
    add_cause(lines, refused.cause);
    let Ok((state, to_next, to_previous)) = refused.state.got(&Msg::from_words(&[2, TOP])) else {
        return lines.add("no mask is taken\n");
    };
    add_words(lines, to_next.words());
    line(lines, "", to_previous.words());
    let Err(refused) = state.got(&short) else {
        return lines.add("a short share is taken\n");
    };
    add_cause(lines, refused.cause);
    let Ok(state) = refused.state.got(&Msg::from_words(&[TOP - 7, 2])) else {
        return lines.add("no share is taken\n");
    };
    let Err(refused) = state.got(&Msg::new()) else {
        return lines.add("an empty share is taken\n");
    };
    add_cause(lines, refused.cause);
    match refused.state.got(&Msg::from_words(&[8, 2])) {
        Ok(opened) => line(lines, "", opened.words()),
        Err(refused) => add_cause(lines, refused.cause),
    }
}

// A result that is handed over as new shares, after a message that is too long.
fn tell_result(lines: &mut Lines) {
    let u: Block<XorRing, P3> = Block::from_words(&[3, 42]);
    let (state, mask) = Result3::start(&u, &[TOP, 0]);
    line(lines, "result", mask.words());
    let Err(refused) = state.got(&Msg::from_words(&[0, 0, 0])) else {
        return lines.add("a long mask is taken\n");
    };
    add_cause(lines, refused.cause);
    match refused.state.got(&Msg::from_words(&[0, 0])) {
        Ok(share) => line(lines, "", share.words()),
        Err(refused) => add_cause(lines, refused.cause),
    }
}

/// The lines of three miners in both rings, of messages of a wrong length, and of a result.
pub fn tell(lines: &mut Lines) {
    tell_three::<AddRing>(lines, [[0, 0], [0, 0], [13, 0]]);
    tell_three::<AddRing>(lines, [[5, 7], [6, 9], [TOP, 2]]);
    tell_three::<XorRing>(lines, [[0, 0], [0, 0], [13, 0]]);
    tell_three::<XorRing>(lines, [[1, 0], [2, 0], [3, TOP]]);
    tell_wrong_lengths(lines);
    tell_result(lines);
}
