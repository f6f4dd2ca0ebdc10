// Runs of programs, with their gates and the words that they need, in the clear and blind.
ghost use Rattle.std.specs.Prelude.{IfSome};
ghost use Rattle.program_trees.specs.TypedPrograms.{typed_program_tree};
ghost use Rattle.program_trees.specs.Sound.{IsSound};
ghost use Rattle.value_file.specs.Input.{AreInputs};
ghost use Rattle.value_file.specs.PublicFile.{IsWritable};

use crate::sources::typed;
use clear_eval::{BlindErr, Report, blind, eval};
use program_trees::TypedProgram;
use row_files::Lines;
use std::alloc::{AllocError, Global};
use value_file::{Inputs, PublicPart, public_part, read};

// The typed tree of a program whose `main` has this body.
fn typed_body(alloc: Global, body: &str) -> Option<TypedProgram>
    ensures { IfSome result (λ p. IsSound (typed_program_tree p)) }
{
    let text = format!(in alloc;
        "import shared3p; domain p shared3p; void main() {{ {body} }}"
    ).ok()?;
    typed(alloc, text.as_str())
}

/// The inputs of these entries.
pub fn inputs_of(alloc: Global, entries: &str) -> Option<Inputs>
    ensures { IfSome result (λ inputs. AreInputs inputs) }
{
    let file = format!(in alloc; "{{\"inputs\":[{entries}]}}").ok()?;
    read(alloc, file.as_bytes()).ok()
}

fn tell_gates(lines: &mut Lines, report: &Report) {
    for gate in report.gates.iter() {
        write!(lines, "{gate:?}; ");
    }
}

// The gates, the words that are needed, what is told and how the run ended.
fn tell_report(lines: &mut Lines, report: &Report) {
    tell_gates(lines, report);
    let needs = &report.needs;
    write!(
        lines,
        "need {} {} {} {}\n",
        needs.dealer, needs.first, needs.second, needs.third
    );
    for event in report.events.iter() {
        write!(lines, "{event}");
    }
    write!(lines, "{}", report.end);
}

fn tell_run(
    alloc: Global,
    lines: &mut Lines,
    program: &TypedProgram,
    inputs: &Inputs,
    lengths: [u64; 4],
)
    requires sound { IsSound (typed_program_tree program.now) }
    requires inputs { AreInputs inputs.now }
{
    match eval(alloc, program, inputs, 1000, lengths) {
        Ok(report) => tell_report(lines, &report),
        Err(AllocError) => lines.run_short(),
    }
}

const NUMBER: &str = "{\"name\":\"a\",\"domain\":\"private\",\"type\":\"uint64\",\"value\":5}";

const NUMBERS: &str =
    "{\"name\":\"a\",\"domain\":\"private\",\"type\":\"uint64\",\"value\":[7,8,9]}";

const TRUTHS: &str = "{\"name\":\"a\",\"domain\":\"private\",\"type\":\"bool\",\"value\":true},\
    {\"name\":\"b\",\"domain\":\"public\",\"type\":\"bool\",\"value\":[true,false]},\
    {\"name\":\"c\",\"domain\":\"private\",\"type\":\"bool\",\"value\":false}";

const OPENED: &str = "p uint64 a = argument(\"a\"); publish(\"x\", declassify(a));";

const TAPES: [u64; 4] = [100, 100, 100, 100];

// The body of `main`, the inputs, and the lengths of the tapes of the dealer and of the miners.
const RUNS: [(&str, &str, [u64; 4]); 15] = [
    (
        "p uint64[[1]] a = argument(\"a\"); publish(\"x\", cat(a, a));",
        NUMBERS,
        TAPES,
    ),
    (
        "p uint64[[1]] a = argument(\"a\"); a[2] = 3; publish(\"x\", a);",
        NUMBERS,
        TAPES,
    ),
    (
        "p uint64[[1]] a = argument(\"a\"); publish(\"x\", a[1]); publish(\"y\", sum(a));",
        NUMBERS,
        TAPES,
    ),
    (
        "p uint64[[1]] a = argument(\"a\"); publish(\"x\", a * 2); publish(\"y\", declassify(a - 1));",
        NUMBERS,
        TAPES,
    ),
    ("p bool[[1]] t (3) = true; publish(\"x\", t);", "", TAPES),
    (
        "bool[[1]] b = argument(\"b\"); p bool a = argument(\"a\"); publish(\"x\", b & a);",
        TRUTHS,
        TAPES,
    ),
    (
        "p bool c = argument(\"c\"); p bool a = argument(\"a\"); publish(\"x\", declassify(a | c));",
        TRUTHS,
        TAPES,
    ),
    (
        "p bool c = argument(\"c\"); publish(\"x\", (uint64) !c);",
        TRUTHS,
        TAPES,
    ),
    (
        "p bool[[1]] t (65) = true; t[64] = false; publish(\"x\", t[64]); publish(\"y\", cat(t, t)[129]); publish(\"z\", (uint64) t[63]);",
        "",
        TAPES,
    ),
    (OPENED, NUMBER, [2, 1, 1, 1]),
    (OPENED, NUMBER, [1, 1, 1, 1]),
    (OPENED, NUMBER, [2, 0, 1, 0]),
    (OPENED, NUMBER, [2, 1, 0, 0]),
    (
        "p uint64[[1]] a = argument(\"a\"); publish(\"x\", a); publish(\"y\", a);",
        NUMBERS,
        [6, 6, 6, 5],
    ),
    ("publish(\"x\", 7);", NUMBER, [2, 0, 0, 0]),
];

fn tell_body(alloc: Global, lines: &mut Lines, body: &str, entries: &str, lengths: [u64; 4]) {
    write!(lines, "run {body}\n");
    match (typed_body(alloc, body), inputs_of(alloc, entries)) {
        (Some(program), Some(inputs)) => tell_run(alloc, lines, &program, &inputs, lengths),
        _ => lines.add("not read\n"),
    }
}

fn tell_blind(
    alloc: Global,
    lines: &mut Lines,
    program: &TypedProgram,
    part: &PublicPart,
    answers: &[u64],
)
    requires sound { IsSound (typed_program_tree program.now) }
    requires part { IsWritable part.now }
{
    write!(lines, "blind {answers:?}\n");
    match blind(alloc, program, part, answers, 10, [2, 1, 1, 1]) {
        Ok(report) => tell_report(lines, &report),
        Err(BlindErr::OpenedShort { have }) => write!(lines, "short {have}\n"),
        Err(BlindErr::Memory) => lines.run_short(),
    }
}

// Blind runs of the program that opens a number, with more words than are opened, with one, and with none.
fn tell_blind_runs(alloc: Global, lines: &mut Lines, program: &TypedProgram, part: &PublicPart)
    requires sound { IsSound (typed_program_tree program.now) }
    requires part { IsWritable part.now }
{
    tell_blind(alloc, lines, program, part, &[5, 9]);
    tell_blind(alloc, lines, program, part, &[9]);
    tell_blind(alloc, lines, program, part, &[]);
}

// The public part of the inputs of these entries.
fn part_of(alloc: Global, entries: &str) -> Option<PublicPart>
    ensures { IfSome result (λ part. IsWritable part) }
{
    let inputs = inputs_of(alloc, entries)?;
    public_part(alloc, &inputs).ok()
}

/// The lines of runs in the clear and of blind ones.
pub fn tell(alloc: Global, lines: &mut Lines) {
    for (body, entries, lengths) in RUNS {
        tell_body(alloc, lines, body, entries, lengths);
    }
    match (typed_body(alloc, OPENED), part_of(alloc, NUMBER)) {
        (Some(program), Some(part)) => tell_blind_runs(alloc, lines, &program, &part),
        _ => lines.add("not read\n"),
    }
}
