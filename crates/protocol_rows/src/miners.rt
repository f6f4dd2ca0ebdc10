// Single miners at work on code: the link that each waits for, what it answers to messages, and what it refuses.
ghost use Rattle.std.specs.Prelude.{◌≡◌, IfSome};
ghost use Rattle.miner_core.specs.declared.kept.Kept.TheVariants as kept;
ghost use Rattle.proto_core.specs.Parties.{receiver_of};

use crate::lines::add_cause;
use bytecode::decode;
use gates::{Values, Words};
use miner_core::{End, Miner, MinerErr, NoTapes, Step, Task};
use program_trees::{DataType, Shape};
use proto_core::{Link, Msg, P1, P2, Party};
use row_files::Lines;
use sc_text::Name;
use std::alloc::Global;
use value_steps::{GivenInput, Lengths};
use verified_code::{Verified, verify};

// Code, and the names and the type of its inputs, which are private scalars.
#[derive(Clone, Copy)]
struct Source {
    code: &'static [u8],
    inputs: &'static [&'static str],
    element: DataType,
}

// Two numbers, a and b, are stored; their sum is opened and published as s.
const SUM: Source = Source {
    code: &[
        83, 67, 51, 80, 2, 3, 0, 1, 97, 1, 98, 1, 115, 1, 0, // three names, one function
        0, 0, 255, 4, 0, 1, 1, 1, 0, 8, 0, // three private registers and a public one, eight instructions
        16, 2, 0, 0, 0, 2, 0, 0, 0, 3, 0, 0, 2, 0, // a
        16, 2, 0, 1, 0, 2, 0, 0, 0, 3, 1, 0, 2, 0, // b
        4, 0, 2, 0, 0, 0, 1, 0, 2, 0, 0, 0, 15, 3, 0, 2, 0, 17, 2, 0, 3, 0, 24,
    ],
    inputs: &["a", "b"],
    element: DataType::Uint64,
};

// A truth value, b, becomes a number that is opened and published as n.
const NUMBER: Source = Source {
    code: &[
        83, 67, 51, 80, 2, 2, 0, 1, 98, 1, 110, 1, 0, // two names, one function
        0, 0, 255, 3, 0, 3, 1, 0, 5, 0, // a private truth value, a private and a public number, five instructions
        16, 0, 0, 0, 0, 2, 0, 0, 0, 6, 1, 0, 0, 0, 15, 2, 0, 1, 0, 17, 1, 0, 2, 0, 24,
    ],
    inputs: &["b"],
    element: DataType::Bool,
};

fn verified(alloc: Global, bytes: &[u8]) -> Option<Verified> {
    let code = decode(alloc, bytes).ok()?;
    verify(code).ok()
}

fn input(alloc: Global, name: &str, element: DataType) -> Option<GivenInput> {
    let words = vec![in alloc; 0].ok()?;
    Some(GivenInput {
        name: Name::from_str(alloc, name).ok()??,
        private: true,
        shape: Shape {
            element,
            array: false,
        },
        words,
    })
}

fn inputs(alloc: Global, source: Source) -> Option<Vec<GivenInput>> {
    let mut inputs = Vec::new(alloc);
    for name in source.inputs {
        inputs.push(input(alloc, name, source.element)?).ok()?;
    }
    Some(inputs)
}

// The share of each input is 0.
fn dealt(alloc: Global, source: Source) -> Option<Values> {
    let mut dealt = Values::new(alloc);
    for _ in source.inputs {
        dealt.push(Words::new(vec![in alloc; 0].ok()?)).ok()?;
    }
    Some(dealt)
}

// A miner at its first wait that keeps all, on a tape of five zeros.
fn miner<P: Party>(alloc: Global, source: Source) -> Option<Miner<P>>
    ensures { IfSome result (λ m. m.past ≡ kept.All) }
{
    let tape = vec![in alloc; 0, 0, 0, 0, 0].ok()?;
    let dealt = dealt(alloc, source)?;
    let task = Task {
        inputs: inputs(alloc, source)?,
        code: verified(alloc, source.code)?,
        dealer: 4,
        lengths: Lengths {
            first: 5,
            second: 5,
            third: 5,
        },
    };
    Miner::whole(alloc, task, dealt, tape, 1000).ok()
}

// Where a miner stands, or why a message leads nowhere.
fn tell_step(lines: &mut Lines, step: Result<Step, MinerErr>) {
    match step {
        Ok(Step::Waits(link)) => write!(lines, " waits for {link};"),
        Ok(Step::Ended(End::Over(ending))) => write!(lines, " ended {ending};"),
        Ok(Step::Ended(_)) => lines.add(" ended otherwise;"),
        Err(MinerErr::NotAwaited { link }) => write!(lines, " {link} is not awaited;"),
        Err(MinerErr::BadMessage { link, cause }) => {
            write!(lines, " refused on {link}");
            add_cause(lines, cause);
            lines.add(";")
        }
        Err(MinerErr::Lost(_)) => lines.run_short(),
    }
}

fn tell_delivery<P: Party>(lines: &mut Lines, miner: &mut Miner<P>, link: Link, message: &Msg)
    requires { receiver_of link ≡ P.me }
    ensures { miner.new.past ≡ miner.old.past }
{
    let step = miner.deliver(link, message, &mut NoTapes);
    tell_step(lines, step);
}

// What a miner has sent and opened.
fn tell_done<P: Party>(alloc: Global, lines: &mut Lines, miner: &Miner<P>)
    requires { miner.now.past ≡ kept.All }
{
    match miner.opened(alloc) {
        Ok(opened) => write!(
            lines,
            " sent {} and {}, opened {:?}\n",
            miner.sent_to_next().len(),
            miner.sent_to_previous().len(),
            opened.as_slice()
        ),
        Err(_) => lines.run_short(),
    }
}

// A message that is too long stays the oldest, and nothing more is sent.
fn tell_long(alloc: Global, lines: &mut Lines, miner: &mut Miner<P1>)
    requires { miner.old.past ≡ kept.All }
{
    lines.add("a long message:");
    tell_step(lines, miner.stands());
    tell_delivery(lines, miner, Link::Link31, &Msg::from_words(&[0, 0]));
    tell_delivery(lines, miner, Link::Link31, &Msg::from_words(&[0]));
    tell_delivery(lines, miner, Link::Link21, &Msg::from_words(&[0]));
    tell_done(alloc, lines, miner);
}

// The second message is not yet awaited, and is kept. After the end no message is awaited.
fn tell_end(alloc: Global, lines: &mut Lines, miner: &mut Miner<P1>)
    requires { miner.old.past ≡ kept.All }
{
    lines.add("a run to its end:");
    tell_delivery(lines, miner, Link::Link31, &Msg::from_words(&[0]));
    tell_delivery(lines, miner, Link::Link21, &Msg::from_words(&[0]));
    tell_delivery(lines, miner, Link::Link31, &Msg::from_words(&[1]));
    tell_delivery(lines, miner, Link::Link31, &Msg::from_words(&[0]));
    tell_delivery(lines, miner, Link::Link21, &Msg::new());
    tell_done(alloc, lines, miner);
}

// The second word has to be a bit.
fn tell_no_bit(alloc: Global, lines: &mut Lines, miner: &mut Miner<P2>)
    requires { miner.old.past ≡ kept.All }
{
    lines.add("no bit:");
    tell_step(lines, miner.stands());
    tell_delivery(lines, miner, Link::Link12, &Msg::from_words(&[10, 2, 0]));
    tell_done(alloc, lines, miner);
}

// The first miner of a sum, once for each of two lists of messages.
fn tell_first(alloc: Global, lines: &mut Lines, is_long: bool) {
    match miner(alloc, SUM) {
        Some(mut miner) if is_long => tell_long(alloc, lines, &mut miner),
        Some(mut miner) => tell_end(alloc, lines, &mut miner),
        None => lines.add("no miner\n"),
    }
}

fn tell_second(alloc: Global, lines: &mut Lines) {
    match miner(alloc, NUMBER) {
        Some(mut miner) => tell_no_bit(alloc, lines, &mut miner),
        None => lines.add("no miner\n"),
    }
}

/// The lines of single miners.
pub fn tell(alloc: Global, lines: &mut Lines) {
    tell_first(alloc, lines, true);
    tell_first(alloc, lines, false);
    tell_second(alloc, lines);
}
