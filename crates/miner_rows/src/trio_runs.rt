// Runs over children and files in memory: what they answer, and which calls of children they make.
use outside::{MemFiles, MemSpawner, SpawnCall};
use row_files::Lines;
use std::alloc::{AllocError, Global};
use trio::{ChildErr, JoinErr, Joined, TrioErr, run};

// The texts of three miners that multiply 6 by 7 and hand the product to the client.
const PRODUCT: [&str; 3] = [
    "share c uint64 0\nend done cost 7\n",
    "share c uint64 0\nend done cost 7\n",
    "share c uint64 42\nend done cost 7\n",
];

// Texts alike but for the first line.
const OPENED: [&str; 3] = [
    "open 42\nend done cost 7\n",
    "open 41\nend done cost 7\n",
    "open 42\nend done cost 7\n",
];

// The second has one truth value fewer, and one word.
const SHORTER: [&str; 3] = [
    "share b bool 65 3 0\nend done cost 7\n",
    "share b bool 64 2\nend done cost 7\n",
    "share b bool 65 1 0\nend done cost 7\n",
];

// The second has one truth value fewer in as many words.
const FEWER: [&str; 3] = [
    "share b bool 64 3\nend done cost 7\n",
    "share b bool 63 2\nend done cost 7\n",
    "share b bool 64 1\nend done cost 7\n",
];

// The words have bits after the last truth value.
const SURPLUS: [&str; 3] = [
    "share b bool 2 18446744073709551615\nend done cost 7\n",
    "share b bool 2 4\nend done cost 7\n",
    "share b bool 2 10\nend done cost 7\n",
];

// The third is the end alone.
const ENDED: [&str; 3] = [
    "publish p true\nend budget cost 7\n",
    "publish p true\nend budget cost 7\n",
    "end budget cost 7\n",
];

// The second is of another form.
const WRONG: [&str; 3] = [
    "open 42\nend done cost 7\n",
    "open 42\nend done cost 07\n",
    "opne 42\n",
];

fn place(
    alloc: Global,
    files: &mut MemFiles,
    path: &str,
    text: Option<&&str>,
) -> Result<(), AllocError> {
    match text {
        Some(text) => files.place(alloc, path, text.as_bytes()),
        None => Ok(()),
    }
}

fn store(alloc: Global, texts: &[&str]) -> Result<MemFiles, AllocError> {
    let mut files = MemFiles::new(alloc, Vec::new(alloc));
    place(alloc, &mut files, "p.o1", texts.first())?;
    place(alloc, &mut files, "p.o2", texts.get(1))?;
    place(alloc, &mut files, "p.o3", texts.get(2))?;
    Ok(files)
}

fn children(alloc: Global, statuses: &[i32], fails: &[u64]) -> Result<MemSpawner, AllocError> {
    let statuses = statuses.to_vec(alloc)?;
    let fails = fails.to_vec(alloc)?;
    Ok(MemSpawner::new(alloc, statuses, fails))
}

fn tell_bytes(lines: &mut Lines, bytes: &[u8]) {
    let text = str::from_utf8(bytes).unwrap_or("no text");
    write!(lines, " {text:?}");
}

fn tell_child(lines: &mut Lines, err: &ChildErr) {
    match err {
        ChildErr::Fault => lines.add(" a child failed"),
        ChildErr::Status { miner, status } => write!(lines, " miner {miner} has status {status}"),
        ChildErr::Memory => lines.run_short(),
    }
}

fn tell_texts(lines: &mut Lines, err: &JoinErr) {
    match err {
        JoinErr::File { miner } => write!(lines, " no text of miner {miner}"),
        JoinErr::BadText { miner, line } => {
            write!(lines, " miner {miner} has a bad line {line}");
        }
        JoinErr::Disagree(found) => {
            let line = found.line();
            write!(lines, " they differ in line {line}:");
            tell_bytes(lines, found.first());
            tell_bytes(lines, found.second());
        }
        JoinErr::Memory => lines.run_short(),
    }
}

fn tell_answer(lines: &mut Lines, answer: &Result<Joined, TrioErr>) {
    match answer {
        Ok(joined) => tell_bytes(lines, joined.text()),
        Err(TrioErr::Child(err)) => tell_child(lines, err),
        Err(TrioErr::Texts(err)) => tell_texts(lines, err),
    }
}

fn tell_call(lines: &mut Lines, call: &SpawnCall) {
    match call {
        SpawnCall::Started { words, child, .. } => {
            write!(lines, "start {child}:");
            for word in words {
                write!(lines, " {word}");
            }
            lines.add("\n");
        }
        SpawnCall::Awaited(child) => write!(lines, "wait {child}\n"),
    }
}

fn tell_run(alloc: Global, lines: &mut Lines, files: &mut MemFiles, children: &mut MemSpawner) {
    let answer = run(alloc, "p", 47310, 1_000_000, files, children);
    tell_answer(lines, &answer);
    let calls = children.calls().len();
    write!(lines, ", {calls} calls\n");
}

// The answer of a run with these texts, where the children have these statuses and the calls on them of these numbers fail.
fn tell_case(alloc: Global, lines: &mut Lines, texts: &[&str], statuses: &[i32], fails: &[u64]) {
    lines.add("run:");
    match (store(alloc, texts), children(alloc, statuses, fails)) {
        (Ok(mut files), Ok(mut children)) => tell_run(alloc, lines, &mut files, &mut children),
        _ => lines.run_short(),
    }
}

fn tell_calls(alloc: Global, lines: &mut Lines, files: &mut MemFiles, children: &mut MemSpawner) {
    let answer = run(alloc, "out/p", 65533, 5, files, children);
    tell_answer(lines, &answer);
    lines.add("\n");
    for call in children.calls() {
        tell_call(lines, call);
    }
}

/// The lines of runs, and the calls of one whose texts are nowhere.
pub fn tell(alloc: Global, lines: &mut Lines) {
    tell_case(alloc, lines, &PRODUCT, &[0, 0, 0], &[]);
    tell_case(alloc, lines, &OPENED, &[0, 0, 0], &[]);
    tell_case(alloc, lines, &SHORTER, &[0, 0, 0], &[]);
    tell_case(alloc, lines, &FEWER, &[0, 0, 0], &[]);
    tell_case(alloc, lines, &SURPLUS, &[0, 0, 0], &[]);
    tell_case(alloc, lines, &ENDED, &[7, 7, 7], &[]);
    tell_case(alloc, lines, &WRONG, &[0, 1, 8], &[]);
    tell_case(alloc, lines, &PRODUCT[..2], &[0, 0, 0], &[]);
    tell_case(alloc, lines, &PRODUCT, &[0, 5, -1], &[]);
    tell_case(alloc, lines, &PRODUCT, &[0, 0, 0], &[1]);
    tell_case(alloc, lines, &PRODUCT, &[0, 9, 0], &[3]);
    tell_case(alloc, lines, &PRODUCT, &[2, 0, 0], &[4]);
    lines.add("calls:");
    match (store(alloc, &[]), children(alloc, &[], &[])) {
        (Ok(mut files), Ok(mut children)) => tell_calls(alloc, lines, &mut files, &mut children),
        _ => lines.run_short(),
    }
}
