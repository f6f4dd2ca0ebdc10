// Row files of which each call of each object fails once.
use crate::failing::{Trial, try_row};
use anyhow::Result;
use row_files::Row;

// Prints what was tried of a row: how many calls of each object failed, and how many came to something else.
fn tell(rt: &impl Print, row: &Row, trial: &Trial) -> Result<bool> {
    println!(rt;
        "{}: {} of files, {} of out, {} of links, {} of children and {} of err failed, {} differ",
        row.title.as_str(),
        trial.files,
        trial.out,
        trial.links,
        trial.children,
        trial.err,
        trial.differing
    )?;
    Ok(trial.differing == 0)
}

/// Tries rows, each call of the objects failing in turn. Whether there are any, and nothing differs.
pub fn try_failing(rt: &(impl Print + AllocGlobal), path: &str, rows: Vec<Row>) -> Result<bool> {
    let mut good = !rows.is_empty();
    for row in rows {
        let mut row = row;
        let trial = try_row(rt, path, &mut row)?;
        good &= tell(rt, &row, &trial)?;
    }
    Ok(good)
}
