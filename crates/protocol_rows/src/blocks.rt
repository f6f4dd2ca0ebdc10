// Links, miners, blocks, messages and lists of them.
use crate::lines::{add_words, line};
use proto_core::{
    AddRing, Block, Link, Messages, Msg, P1, P2, P3, Party, Schedule, Share, ShareRing, XorRing,
    add_blocks, check_bits, reshare, subtract_blocks, sum_of_shares, zero_block,
};
use row_files::Lines;
use std::alloc::{AllocError, Global};

const NAMES: [&str; 10] = ["12", "13", "21", "23", "31", "32", "11", "14", "2 ", "123"];

// The link that a text names, with its ends.
fn tell_link(lines: &mut Lines, name: &str) {
    match Link::from_text(name.as_bytes()) {
        Some(link) => write!(
            lines,
            "link {link} from {} to {}\n",
            link.sender(),
            link.receiver()
        ),
        None => write!(lines, "link {name}: none\n"),
    }
}

// A miner's number, those before and after it in the ring, and its links to the next and the previous one.
fn tell_miner<P: Party>(lines: &mut Lines) {
    let me = P::number();
    let (before, behind) = (me.previous().as_u8(), me.next().as_u8());
    let (next, previous) = (me.link_to_next(), me.link_to_previous());
    write!(lines, "miner {me}: {before} {behind} {next} {previous}\n");
}

// The word of a share that a block may have at a place.
fn tell_share(lines: &mut Lines, block: &Block<AddRing, P1>, at: usize) {
    match block.get(at) {
        Some(share) => line(lines, "share", &[share.word()]),
        None => lines.add("no share\n"),
    }
}

// How many of 600 words a block takes, its length and the length of a copy; and the shares at the end and after it.
fn tell_full_block(lines: &mut Lines) {
    let mut block: Block<AddRing, P1> = Block::new();
    let empty = u64::from(block.is_empty());
    let mut taken = 0u64;
    for word in 0..600u64 {
        if block.push(word).is_ok() {
            taken = taken.saturating_add(1);
        }
    }
    let copied = block.copy().words().len() as u64;
    line(lines, "block", &[empty, taken, block.len() as u64, copied]);
    tell_share(lines, &block, 511);
    tell_share(lines, &block, 512);
}

fn tell_message(lines: &mut Lines, messages: &Messages, at: usize) {
    match messages.get(at) {
        Some(msg) => add_words(lines, msg.words()),
        None => lines.add(" none\n"),
    }
}

// A list of three messages.
fn messages(alloc: Global) -> Result<Messages, AllocError> {
    let mut messages = Messages::new(alloc);
    for words in [&[7u64, 8][..], &[], &[9]] {
        messages.push(&Msg::from_words(words))?;
    }
    Ok(messages)
}

// Whether a new list is empty, how many messages a list has, and each of them.
fn tell_messages(alloc: Global, lines: &mut Lines, messages: &Messages) {
    let empty = u64::from(Messages::new(alloc).is_empty());
    line(lines, "messages", &[empty, messages.len() as u64]);
    for at in 0..4usize {
        tell_message(lines, messages, at);
    }
}

fn schedule(alloc: Global) -> Result<Schedule, AllocError> {
    let mut schedule = Schedule::new(alloc);
    schedule.push(Link::Link23)?;
    schedule.push(Link::Link12)?;
    Ok(schedule)
}

// How many entries a schedule of two has, and the second.
fn tell_schedule(lines: &mut Lines, schedule: &Schedule) {
    let count = schedule.iter().count();
    let second = schedule.get(1);
    write!(lines, "schedule {count} {second:?}\n");
}

// A message in which words that are no bits stand.
fn tell_bits(lines: &mut Lines) {
    let mut msg = Msg::from_words(&[9, 0, 1, 2]);
    msg.push(3);
    let bits = check_bits(&msg, 1, 2);
    let others = check_bits(&msg, 1, 4);
    write!(lines, "bits {bits:?} {others:?}\n");
    let second: Block<XorRing, P2> = msg.field(1, 2);
    add_words(lines, second.words());
    line(lines, "", &[msg.copy().word(4)]);
}

// Of 5, 7 and 2: the first masked again, the sum of three, a sum, a difference and a negative; of 6 and 3: sum, difference, product.
fn worked<R: ShareRing>() -> [u64; 8] {
    let u: Block<R, P3> = Block::from_words(&[5]);
    let mask = Block::from_words(&[7]);
    let got = Block::from_words(&[2]);
    let share: Share<R, P3> = Share::new(6);
    let other = Share::new(3);
    [
        reshare(&u, &mask, &got).word(0),
        sum_of_shares(&u, &mask, &got).word(0),
        add_blocks(&u, &got).word(0),
        subtract_blocks(&got, &u).word(0),
        subtract_blocks(&zero_block(1), &got).word(0),
        share.add(&other).word(),
        other.sub(&share).word(),
        share.mul_public(5).word(),
    ]
}

// Blocks, messages, schedules and shares.
fn tell_lists(alloc: Global, lines: &mut Lines) {
    tell_full_block(lines);
    match messages(alloc) {
        Ok(messages) => tell_messages(alloc, lines, &messages),
        Err(AllocError) => lines.run_short(),
    }
    match schedule(alloc) {
        Ok(schedule) => tell_schedule(lines, &schedule),
        Err(AllocError) => lines.run_short(),
    }
    tell_bits(lines);
    line(lines, "by sum", &worked::<AddRing>());
    line(lines, "by xor", &worked::<XorRing>());
}

/// The lines of links, miners, blocks, messages, schedules and shares.
pub fn tell(alloc: Global, lines: &mut Lines) {
    for name in NAMES {
        tell_link(lines, name);
    }
    tell_miner::<P1>(lines);
    tell_miner::<P2>(lines);
    tell_miner::<P3>(lines);
    tell_lists(alloc, lines);
}
