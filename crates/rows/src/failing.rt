// A row whose calls fail, each in turn.
use crate::calling::call;
use anyhow::Result;
use row_faults::{calls_made, judge_fault};
use row_files::{Failing, Object, Outcome, Row, judge};

/// How many calls of each object failed, and how many of the calls of the program came to something else than they must.
#[derive(Clone, Copy)]
pub struct Trial {
    pub files: u64,
    pub out: u64,
    pub err: u64,
    pub links: u64,
    pub children: u64,
    pub differing: u64,
}

impl Trial {
    // Counts a call of an object that failed.
    fn count(&mut self, object: Object, agrees: bool) {
        let count = match object {
            Object::Files => &mut self.files,
            Object::Out => &mut self.out,
            Object::Err => &mut self.err,
            Object::Links => &mut self.links,
            Object::Children => &mut self.children,
        };
        *count = count.saturating_add(1);
        self.mark(agrees);
    }

    // Counts a call of the program that came to something else.
    fn mark(&mut self, agrees: bool) {
        if !agrees {
            self.differing = self.differing.saturating_add(1);
        }
    }
}

fn name(object: Object) -> &'static str {
    match object {
        Object::Files => "files",
        Object::Out => "out",
        Object::Err => "err",
        Object::Links => "links",
        Object::Children => "children",
    }
}

// Prints what is wrong with a row in which these calls fail.
fn complain(rt: &impl Print, path: &str, row: &Row, report: &str) -> Result<()> {
    print!(rt; "{path}:{}: {}", row.line, row.title.as_str())?;
    for failing in row.failing.iter() {
        print!(rt; ", call {} of {} fails", failing.call, name(failing.object))?;
    }
    println!(rt;)?;
    print!(rt; "{report}")?;
    Ok(())
}

// Whether what came out is what the row says.
fn is_as_said(
    rt: &(impl Print + AllocGlobal),
    path: &str,
    row: &Row,
    found: &Outcome,
) -> Result<bool> {
    let mut report = String::new(rt.alloc());
    let agrees = judge(rt.alloc(), &mut report, row, found)?;
    if !agrees {
        complain(rt, path, row, report.as_str())?;
    }
    Ok(agrees)
}

// Whether what came out where one more call fails is what must come, by what came where it does not.
fn is_as_must(
    rt: &(impl Print + AllocGlobal),
    path: &str,
    row: &Row,
    good: &Outcome,
    failing: Failing,
    found: &Outcome,
) -> Result<bool> {
    let mut report = String::new(rt.alloc());
    let agrees = judge_fault(rt.alloc(), &mut report, row, good, failing, found)?;
    if !agrees {
        complain(rt, path, row, report.as_str())?;
    }
    Ok(agrees)
}

// Lets each call of the error stream fail, too, until one is not made.
fn fail_err(
    rt: &(impl Print + AllocGlobal),
    path: &str,
    row: &mut Row,
    good: &Outcome,
    trial: &mut Trial,
) -> Result<()> {
    for number in 0..u64::MAX {
        let failing = Failing {
            object: Object::Err,
            call: number,
        };
        row.failing.push(failing)?;
        let found = call(rt.alloc(), row)?;
        if calls_made(Object::Err, &found) <= number {
            row.failing.pop();
            return Ok(());
        }
        let agrees = is_as_must(rt, path, row, good, failing, &found)?;
        trial.count(Object::Err, agrees);
        row.failing.pop();
    }
    Ok(())
}

// Lets each call of an object fail, until one is not made; with each of them each call of the error stream.
fn fail_object(
    rt: &(impl Print + AllocGlobal),
    path: &str,
    row: &mut Row,
    good: &Outcome,
    object: Object,
    trial: &mut Trial,
) -> Result<()> {
    for number in 0..u64::MAX {
        let failing = Failing {
            object,
            call: number,
        };
        row.failing.push(failing)?;
        let found = call(rt.alloc(), row)?;
        if calls_made(object, &found) <= number {
            trial.mark(is_as_said(rt, path, row, &found)?);
            row.failing.pop();
            return Ok(());
        }
        let agrees = is_as_must(rt, path, row, good, failing, &found)?;
        trial.count(object, agrees);
        fail_err(rt, path, row, &found, trial)?;
        row.failing.pop();
    }
    Ok(())
}

/// Tries a row as it is, with each call failing in turn, and with one byte at a time.
pub fn try_row(rt: &(impl Print + AllocGlobal), path: &str, row: &mut Row) -> Result<Trial> {
    let mut trial = Trial {
        files: 0,
        out: 0,
        err: 0,
        links: 0,
        children: 0,
        differing: 0,
    };
    let good = call(rt.alloc(), row)?;
    trial.mark(is_as_said(rt, path, row, &good)?);
    fail_err(rt, path, row, &good, &mut trial)?;
    for object in [Object::Files, Object::Out, Object::Links, Object::Children] {
        fail_object(rt, path, row, &good, object, &mut trial)?;
    }
    row.slow = true;
    let slow = call(rt.alloc(), row)?;
    trial.mark(is_as_said(rt, path, row, &slow)?);
    Ok(trial)
}
