// Joint runs of gates, with the messages, shares and opened words that they give.
use crate::lines::{add_words, line};
use gates::{Gate, RingKind, Words};
use joint_run::{JointErr, JointRun, SharedValues, Tapes, joint_run};
use plans::{compare, equality};
use proto_core::{Link, Number};
use row_files::Lines;
use std::alloc::{AllocError, Global};

const TOP: u64 = 18_446_744_073_709_551_615;

const WORD: u64 = 11_400_714_819_323_198_485;

fn words(alloc: Global, words: &[u64]) -> Result<Words, AllocError> {
    Ok(Words::new(words.to_vec(alloc)?))
}

// One value more, of which each miner has a share.
fn deal(alloc: Global, dealt: &mut SharedValues, shares: [&[u64]; 3]) -> Result<(), AllocError> {
    let first = words(alloc, shares[0])?;
    let second = words(alloc, shares[1])?;
    let third = words(alloc, shares[2])?;
    dealt.push(first, second, third)
}

fn dealt(alloc: Global, values: &[[&[u64]; 3]]) -> Result<SharedValues, AllocError> {
    let mut dealt = SharedValues::new(alloc);
    for shares in values {
        deal(alloc, &mut dealt, *shares)?;
    }
    Ok(dealt)
}

// The same tape for all three miners.
fn same_tapes(tape: &[u64]) -> Tapes<'_> {
    Tapes {
        first: tape,
        second: tape,
        third: tape,
    }
}

// How many messages each link carried, and how many words are left of each tape.
fn counts(run: &JointRun) -> [u64; 9] {
    let traffic = &run.transcript.traffic;
    [
        traffic.on(Link::Link12).len() as u64,
        traffic.on(Link::Link13).len() as u64,
        traffic.on(Link::Link21).len() as u64,
        traffic.on(Link::Link23).len() as u64,
        traffic.on(Link::Link31).len() as u64,
        traffic.on(Link::Link32).len() as u64,
        run.tapes.of(Number::One).len() as u64,
        run.tapes.of(Number::Two).len() as u64,
        run.tapes.of(Number::Three).len() as u64,
    ]
}

// The three shares of a value.
fn add_shares(lines: &mut Lines, run: &JointRun, value: u64) {
    add_words(lines, run.shares.of(Number::One).value(value));
    add_words(lines, run.shares.of(Number::Two).value(value));
    add_words(lines, run.shares.of(Number::Three).value(value));
}

// A message of a link.
fn add_message(lines: &mut Lines, run: &JointRun, link: Link, at: usize) {
    match run.transcript.traffic.on(link).get(at) {
        Some(message) => add_words(lines, message.words()),
        None => lines.add(" no message"),
    }
}

// The values whose shares are told of a run, and the messages.
#[derive(Clone, Copy)]
struct Asked<'a> {
    values: &'a [u64],
    messages: &'a [(Link, usize)],
}

// What a run opens and counts, the shares of some values, and some messages.
fn tell_run(lines: &mut Lines, run: &JointRun, asked: Asked<'_>) {
    add_words(lines, run.transcript.opened.as_slice());
    add_words(lines, &counts(run));
    for value in asked.values {
        add_shares(lines, run, *value);
    }
    for (link, at) in asked.messages {
        add_message(lines, run, *link, *at);
    }
    lines.add("\n");
}

// Why a run is refused.
fn tell_refusal(lines: &mut Lines, error: JointErr) {
    match error {
        JointErr::Memory => lines.run_short(),
        JointErr::Dealt => lines.add(" dealt\n"),
        JointErr::Unsuited { place } => write!(lines, " unsuited {place}\n"),
        JointErr::TapeEnds {
            place,
            miner,
            need,
            have,
        } => write!(
            lines,
            " gate {place} miner {miner} need {need} have {have}\n"
        ),
    }
}

// A line of what a run gives, or why it is refused.
fn tell_end(lines: &mut Lines, run: Result<JointRun, JointErr>, asked: Asked<'_>) {
    match run {
        Ok(run) => tell_run(lines, &run, asked),
        Err(error) => tell_refusal(lines, error),
    }
}

// The line of gates over what is dealt.
fn tell_gates(
    alloc: Global,
    lines: &mut Lines,
    gates: &[Gate],
    values: &[[&[u64]; 3]],
    tapes: Tapes<'_>,
    asked: Asked<'_>,
) {
    match dealt(alloc, values) {
        Ok(dealt) => tell_end(lines, joint_run(alloc, gates, &dealt, tapes), asked),
        Err(AllocError) => lines.run_short(),
    }
}

fn input(number: u64) -> Gate {
    Gate::Input { number }
}

fn opened(operand: u64) -> Gate {
    Gate::Open {
        ring: RingKind::Arithmetic,
        operand,
    }
}

fn opened_truth(operand: u64) -> Gate {
    Gate::Open {
        ring: RingKind::Boolean,
        operand,
    }
}

// Nothing but what is opened and counted.
const COUNTS: Asked<'static> = Asked {
    values: &[],
    messages: &[],
};

const PRODUCT: Asked<'static> = Asked {
    values: &[2, 3],
    messages: &[
        (Link::Link31, 0),
        (Link::Link31, 1),
        (Link::Link31, 2),
        (Link::Link31, 3),
    ],
};

const FIRST_MESSAGES: Asked<'static> = Asked {
    values: &[],
    messages: &[(Link::Link12, 0), (Link::Link13, 0)],
};

const ALL_VALUES: Asked<'static> = Asked {
    values: &[1, 2, 3, 4],
    messages: &[],
};

// Each miner's shares of 6 and 7.
const FACTORS: [[&[u64]; 3]; 2] = [[&[0], &[0], &[6]], [&[0], &[0], &[7]]];

// Two inputs and their product, opened.
fn product(alloc: Global, lines: &mut Lines, tapes: Tapes<'_>) {
    let gates = [
        input(0),
        input(1),
        Gate::Mul { left: 0, right: 1 },
        opened(2),
    ];
    lines.add("product");
    tell_gates(alloc, lines, &gates, &FACTORS, tapes, PRODUCT);
}

// A bit that becomes a number.
fn converted(alloc: Global, lines: &mut Lines, bit: u64) {
    let gates = [input(0), Gate::Conv { operand: 0 }, opened(1)];
    write!(lines, "converted {bit}:");
    let tapes = same_tapes(&[3, 2, 10, 0, 0]);
    tell_gates(
        alloc,
        lines,
        &gates,
        &[[&[0], &[0], &[bit]]],
        tapes,
        FIRST_MESSAGES,
    );
}

// 5 is 1 + 1 + 3; with the word 7 the second miner has 1 + 7, the third 3 + 1 - 7, or its negative.
fn split(alloc: Global, lines: &mut Lines, negated: bool) {
    let gates = [
        input(0),
        Gate::Split {
            operand: 0,
            negated,
        },
        Gate::Result {
            ring: RingKind::Boolean,
            operand: 2,
        },
        Gate::Not { operand: 1 },
    ];
    let tapes = Tapes {
        first: &[7, 1],
        second: &[4],
        third: &[2],
    };
    write!(lines, "split {negated}:");
    tell_gates(
        alloc,
        lines,
        &gates,
        &[[&[1], &[1], &[3]]],
        tapes,
        ALL_VALUES,
    );
}

// The gates that make the operands of a plan, the plan, and the gate that opens a value.
fn opened_plan(
    mut gates: Vec<Gate>,
    mut plan: Vec<Gate>,
    value: u64,
) -> Result<Vec<Gate>, AllocError> {
    gates.append(&mut plan)?;
    gates.push(opened_truth(value))?;
    Ok(gates)
}

fn less_plan(alloc: Global) -> Result<Vec<Gate>, AllocError> {
    let plan = compare::plan(alloc, 2, 0, 1, 1)?;
    opened_plan(vec![in alloc; input(0), input(1)]?, plan, 111)
}

fn equal_plan(alloc: Global) -> Result<Vec<Gate>, AllocError> {
    let plan = equality::plan(alloc, 3, 2, 1)?;
    let operands = vec![in alloc; input(0), input(1), Gate::Sub { left: 0, right: 1 }]?;
    opened_plan(operands, plan, 19)
}

// Each number is the sum of the shares WORD and 5 and this one.
fn third_share(number: u64) -> u64 {
    number.wrapping_sub(WORD).wrapping_sub(5)
}

// The line of a plan for two numbers.
fn tell_plan(
    alloc: Global,
    lines: &mut Lines,
    plan: Result<Vec<Gate>, AllocError>,
    numbers: [u64; 2],
    tape: &[u64],
) {
    let first = [third_share(numbers[0])];
    let second = [third_share(numbers[1])];
    let values: [[&[u64]; 3]; 2] = [[&[WORD], &[5], &first], [&[WORD], &[5], &second]];
    match plan {
        Ok(gates) => tell_gates(alloc, lines, &gates, &values, same_tapes(tape), COUNTS),
        Err(AllocError) => lines.run_short(),
    }
}

fn less(alloc: Global, lines: &mut Lines, a: u64, b: u64) {
    write!(lines, "less {a} {b}:");
    tell_plan(alloc, lines, less_plan(alloc), [a, b], &[WORD; 121]);
}

fn equal(alloc: Global, lines: &mut Lines, a: u64, b: u64) {
    write!(lines, "equal {a} {b}:");
    tell_plan(alloc, lines, equal_plan(alloc), [a, b], &[WORD; 20]);
}

// A gate that is the difference of a product and what is not there.
fn unsuited(alloc: Global, lines: &mut Lines) {
    let gates = [
        input(0),
        input(1),
        Gate::Mul { left: 0, right: 1 },
        Gate::Sub { left: 2, right: 4 },
    ];
    lines.add("no such value");
    tell_gates(alloc, lines, &gates, &FACTORS, same_tapes(&[0; 3]), COUNTS);
}

// The second miner is dealt one word where the others are dealt two.
fn uneven(alloc: Global, lines: &mut Lines) {
    let values: [[&[u64]; 3]; 1] = [[&[1, 2], &[1], &[1, 2]]];
    lines.add("uneven shares");
    tell_gates(alloc, lines, &[input(0)], &values, same_tapes(&[]), COUNTS);
}

// How many words are opened, how many of them are 9, and what is counted.
fn tell_nines(lines: &mut Lines, run: &JointRun) {
    let words = run.transcript.opened.as_slice();
    let nines = words.iter().filter(|word| **word == 9).count();
    add_words(lines, &[words.len() as u64, nines as u64]);
    line(lines, "", &counts(run));
}

fn tell_square(lines: &mut Lines, run: Result<JointRun, JointErr>) {
    match run {
        Ok(run) => tell_nines(lines, &run),
        Err(error) => tell_refusal(lines, error),
    }
}

// A list of threes that is squared and opened.
fn squared(alloc: Global, lines: &mut Lines, threes: [&[u64]; 3]) {
    let gates = [input(0), Gate::Mul { left: 0, right: 0 }, opened(1)];
    lines.add("squares");
    match dealt(alloc, &[threes]) {
        Ok(dealt) => {
            let run = joint_run(alloc, &gates, &dealt, same_tapes(&[WORD; 2053]));
            tell_square(lines, run);
        }
        Err(AllocError) => lines.run_short(),
    }
}

// Gates that are told by their shares and messages.
fn tell_gate_runs(alloc: Global, lines: &mut Lines) {
    let short = Tapes {
        first: &[0, 0, 0],
        second: &[0, 0],
        third: &[0],
    };
    product(alloc, lines, same_tapes(&[0; 5]));
    product(alloc, lines, short);
    unsuited(alloc, lines);
    uneven(alloc, lines);
    split(alloc, lines, false);
    split(alloc, lines, true);
}

// Plans that are told by what they open.
fn tell_plan_runs(alloc: Global, lines: &mut Lines) {
    for bit in [0u64, 1] {
        converted(alloc, lines, bit);
    }
    for (a, b) in [(TOP, 1u64), (1, TOP), (7, 7)] {
        less(alloc, lines, a, b);
    }
    for (a, b) in [(0u64, TOP), (5, 5)] {
        equal(alloc, lines, a, b);
    }
    squared(alloc, lines, [&[1; 512], &[TOP; 512], &[3; 512]]);
    squared(alloc, lines, [&[1; 513], &[TOP; 513], &[3; 513]]);
    squared(alloc, lines, [&[], &[], &[]]);
}

/// The lines of joint runs.
pub fn tell(alloc: Global, lines: &mut Lines) {
    tell_gate_runs(alloc, lines);
    tell_plan_runs(alloc, lines);
}
