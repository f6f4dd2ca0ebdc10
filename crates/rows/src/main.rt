//! Rows of the program: reads row files, calls the program as each row says over files, streams, links and children in memory, and
//! prints how what comes out differs from what the row says. `rows.md` says what a row file is. Of the files named after the word
//! `failing` each call of each object of a row fails once: `faults.md` says what must come then, and how the calls are counted.
#![tactic(auto)]

mod calling;
mod failing;
mod failing_files;

use crate::calling::call;
use crate::failing_files::try_failing;
use anyhow::{Result, bail};
use row_files::{Refused, Row, Tally, Wrong, judge, read_rows};
use std::alloc::Global;
use std::process::ExitCode;
use std::rt::Files;
use std::{env, fs};

// A seed of tapes, and how many words each of them has: enough for all rows that evaluate in the clear.
const SEED: &str = "0000000000000000000000000000000000000000000000000000000000000000";

const WORDS: &str = "262144";

// The words of `run` in the place of those of `eval`: it prints what `eval` prints, where the tapes are long enough.
fn on_shares(alloc: Global, words: &[String]) -> Result<Vec<String>> {
    let mut run = Vec::new(alloc);
    run.push(String::from_str(alloc, "run")?)?;
    for word in words.iter().skip(1) {
        run.push(word.clone()?)?;
    }
    for word in ["--seed", SEED, "--words", WORDS] {
        run.push(String::from_str(alloc, word)?)?;
    }
    Ok(run)
}

fn evaluates(row: &Row) -> bool {
    match row.words.first() {
        Some(word) => word.as_str() == "eval",
        None => false,
    }
}

// Calls the program as a row says. Whether what comes out is what the row says; where it is not, it is printed how it differs.
fn try_row(rt: &(impl Print + AllocGlobal), path: &str, row: &Row) -> Result<bool> {
    let outcome = call(rt.alloc(), row)?;
    let mut report = String::new(rt.alloc());
    let agrees = judge(rt.alloc(), &mut report, row, &outcome)?;
    if !agrees {
        println!(rt; "{path}:{}: {}", row.line, row.title.as_str())?;
        print!(rt; "{}", report.as_str())?;
    }
    Ok(agrees)
}

fn none_tried() -> Tally {
    Tally {
        rows: 0,
        differing: 0,
    }
}

// Tries rows, and each that evaluates in the clear on shares too. Whether there are any, and none differs.
fn try_rows(rt: &(impl Print + AllocGlobal), path: &str, rows: Vec<Row>) -> Result<bool> {
    let mut tally = none_tried();
    let mut shared = none_tried();
    for row in rows {
        tally.count(try_row(rt, path, &row)?);
        if evaluates(&row) {
            let mut row = row;
            row.words = on_shares(rt.alloc(), &row.words)?;
            shared.count(try_row(rt, path, &row)?);
        }
    }
    println!(rt;
        "{path}: {} rows, {} differ; {} on shares, {} differ",
        tally.rows, tally.differing, shared.rows, shared.differing
    )?;
    Ok(tally.is_good() && shared.differing == 0)
}

// Says in which line a file cannot be read, and why.
fn refuse(rt: &impl Print, path: &str, refused: Refused) -> Result<bool> {
    match refused.wrong {
        Wrong::Memory => bail!("no memory for {path}"),
        Wrong::Said(why) => println!(rt; "{path}:{}: {why}", refused.line)?,
    }
    Ok(false)
}

// Whether a file has rows, and none of them differs.
fn try_file(rt: &(impl Print + Files + AllocGlobal), path: &str, failing: bool) -> Result<bool> {
    let bytes = fs::read(rt, path)?;
    match read_rows(rt.alloc(), &bytes) {
        Ok(rows) if failing => try_failing(rt, path, rows),
        Ok(rows) => try_rows(rt, path, rows),
        Err(refused) => refuse(rt, path, refused),
    }
}

fn main(rt: HostRuntime) -> Result<ExitCode> {
    let mut files = 0u64;
    let mut good = true;
    let mut failing = false;
    for word in env::args(&rt)?.skip(1) {
        if word.as_str() == "failing" {
            failing = true;
            continue;
        }
        files = files.saturating_add(1);
        let is_good = try_file(&rt, word.as_str(), failing)?;
        good = good && is_good;
    }
    if good && files != 0 {
        Ok(ExitCode::SUCCESS)
    } else {
        Ok(ExitCode::from(1))
    }
}
