// What came out against what the row says.
ghost use Rattle.std.specs.Prelude.{◌≡◌, ◌==◌, ◌++◌, ◌||◌, IfOk, OnOk, map, not, option_map, string_bytes, take};
ghost use Rattle.std.specs.List.{flat_map, list_any};
ghost use Rattle.std.specs.Str.{bytes_eq};
ghost use Rattle.outside.specs.Files.{file_at};
ghost use Rattle.outside.specs.MemFiles.{files_in};
ghost use Rattle.outside.specs.SpawnCall.{call_of, calls_of};
ghost use Rattle.row_files.specs.Agreeing.{agrees, is_sent};
ghost use Rattle.row_files.specs.Calls.{call_told, calls_told, word_told};
ghost use Rattle.row_files.specs.Texts.{speaks_of, last_end_text, end_text, fits, fits_at, files_fit, peer_named};
ghost use Rattle.row_files.specs.Texts.{is_of_file as file_kind, is_of_end as end_kind};

use crate::lines::Lines;
use crate::row::{Kind, Row, Text, peer_of};
use outside::{MemFiles, MemLinks, MemSink, MemSpawner, SpawnCall};
use std::alloc::{AllocError, Global};

/// What a call answered and left.
pub struct Outcome {
    pub status: u8,
    pub files: MemFiles,
    pub out: MemSink,
    pub err: MemSink,
    pub links: MemLinks,
    pub children: MemSpawner,
}

// Written out, so that an early exit calls this once.
impl Drop for Outcome {
    fn drop(self) {
        let Outcome {
            status: _,
            files: _,
            out: _,
            err: _,
            links: _,
            children: _,
        } = self;
    }
}

// No more bytes of a text are shown.
const SHOWN: usize = 2000;

fn add_hex(report: &mut Lines, bytes: &[u8]) {
    report.add("    hex");
    for byte in bytes {
        write!(report, " {byte:02x}");
    }
    report.add("\n");
}

// Each line of a text as a row file gives it.
fn add_lines(report: &mut Lines, text: &str) {
    for line in text.lines() {
        write!(report, "    |{line}\n");
    }
    if !text.is_empty() && !text.ends_with('\n') {
        report.add("    # with no line feed at the end\n");
    }
}

// Bytes as a row file gives them.
fn add_bytes(report: &mut Lines, bytes: &[u8]) {
    let shown = &bytes[..bytes.len().min(SHOWN)];
    let is_plain = shown.iter().all(|b| *b >= b' ' || *b == b'\n');
    match str::from_utf8(shown) {
        Ok(text) if is_plain => add_lines(report, text),
        _ => add_hex(report, shown),
    }
    if bytes.len() > SHOWN {
        write!(report, "    # and so on, {} bytes in all\n", bytes.len());
    }
}

// Whether the two are the same. Where they are not, the report says so.
fn same(report: &mut Lines, name: &str, path: &str, wanted: &[u8], found: &[u8]) -> bool
    ensures { result ≡ bytes_eq wanted.now found.now }
{
    if wanted == found {
        return true;
    }
    write!(report, "  {name}{path}: the row says\n");
    add_bytes(report, wanted);
    report.add("  but there came\n");
    add_bytes(report, found);
    false
}

// Whether texts of this kind speak of a file.
fn is_of_file(kind: Kind) -> bool
    ensures { result ≡ file_kind kind }
{
    matches!(kind, Kind::Held | Kind::Written | Kind::Absent)
}

// Whether texts of this kind say what is at a path in the end.
fn is_of_end(kind: Kind) -> bool
    ensures { result ≡ end_kind kind }
{
    matches!(kind, Kind::Written | Kind::Absent)
}

// The last text that says what is at this path in the end.
fn last_end<'a>(row: &'a Row, path: &str) -> Option<&'a Text>
    ensures { option_map (λ text. text.now) result ≡ last_end_text row.now.texts.items path.now }
{
    let mut texts = row.texts.iter().rev();
    texts.find(|text| is_of_end(text.kind) && text.name.as_str() == path)
}

// What a file must be afterwards: the last text that says so of this path, or else what it was.
fn wanted_file<'a>(row: &'a Row, path: &str) -> Option<&'a Text>
    ensures { option_map (λ text. text.now) result ≡ end_text row.now.texts.items path.now }
{
    last_end(row, path).or(row.find(Kind::Held, path))
}

// Whether one of so many texts speaks of this file.
fn is_told(row: &Row, count: usize, path: &str) -> bool
    ensures { result ≡ list_any (speaks_of path.now) (take count row.now.texts.items) }
{
    let mut texts = row.texts.iter().take(count);
    texts.any(|text| is_of_file(text.kind) && text.name.as_str() == path)
}

fn same_file(report: &mut Lines, path: &str, wanted: &Text, outcome: &Outcome) -> bool
    ensures { result ≡ fits (file_at (files_in outcome.now.files) path.now) wanted.now }
{
    let is_absent = wanted.kind == Kind::Absent;
    match outcome.files.get(path) {
        Some(_) if is_absent => {
            write!(report, "  file {path}: is there\n");
            false
        }
        Some(found) => same(report, "file ", path, &wanted.bytes, found),
        None => {
            if !is_absent {
                write!(report, "  file {path}: is not there\n");
            }
            is_absent
        }
    }
}

fn same_at(report: &mut Lines, row: &Row, path: &str, outcome: &Outcome) -> bool
    ensures { result ≡ fits_at row.now.texts.items (files_in outcome.now.files) path.now }
{
    match wanted_file(row, path) {
        Some(wanted) => same_file(report, path, wanted, outcome),
        None => true,
    }
}

// Whether the file of which a text speaks, if it speaks of one, is what the row says. An earlier text can have said of it.
fn same_text(report: &mut Lines, row: &Row, index: usize, text: &Text, outcome: &Outcome) -> bool
    ensures { let texts = row.now.texts.items in
        let path = string_bytes text.now.name in
        result ≡ (not (file_kind text.now.kind) || list_any (speaks_of path) (take index texts) || fits_at texts (files_in outcome.now.files) path) }
{
    let path = text.name.as_str();
    !is_of_file(text.kind) || is_told(row, index, path) || same_at(report, row, path, outcome)
}

// Each file that the row names, once.
fn same_files(report: &mut Lines, row: &Row, outcome: &Outcome) -> bool
    ensures { result ≡ files_fit row.now.texts.items (files_in outcome.now.files) }
{
    let mut all = true;
    for (index, text) in row.texts.iter().enumerate() {
        all &= same_text(report, row, index, text, outcome);
    }
    all
}

fn same_sent(report: &mut Lines, row: &Row, outcome: &Outcome, name: &str) -> bool
    ensures { result ≡ is_sent row.now outcome.now (peer_named name.now) name.now }
{
    same(
        report,
        "sent ",
        name,
        row.bytes(Kind::Sent, name),
        outcome.links.sent(peer_of(name)),
    )
}

// Adds each word after a blank.
fn add_words(line: &mut String, words: &[String]) -> Result<(), AllocError>
    ensures { OnOk result (string_bytes line.new ≡ string_bytes line.old ++ flat_map word_told (map string_bytes words.now)) }
{
    for word in words {
        line.push_str(" ")?;
        line.push_str(word.as_str())?;
    }
    Ok(())
}

// Adds a call of a child as a line: `start WORD WORD ..` or `wait CHILD`.
fn add_call(lines: &mut String, call: &SpawnCall) -> Result<(), AllocError>
    ensures { OnOk result (string_bytes lines.new ≡ string_bytes lines.old ++ call_told (call_of call.now)) }
{
    match call {
        SpawnCall::Started { words, .. } => {
            lines.push_str("start")?;
            add_words(lines, words)?;
        }
        SpawnCall::Awaited(child) => write!(lines, "wait {child}")?,
    }
    lines.push_str("\n")
}

/// The calls of children as lines: `start WORD WORD ..` or `wait CHILD`.
pub fn call_lines(alloc: Global, calls: &[SpawnCall]) -> Result<String, AllocError>
    ensures { IfOk result (λ lines. string_bytes lines ≡ calls_told (calls_of calls.now)) }
{
    let mut lines = String::new(alloc);
    for call in calls {
        add_call(&mut lines, call)?;
    }
    Ok(lines)
}

fn same_status(report: &mut Lines, row: &Row, outcome: &Outcome) -> bool
    ensures { result ≡ outcome.now.status == row.now.status }
{
    if outcome.status == row.status {
        return true;
    }
    let (wanted, found) = (row.status, outcome.status);
    write!(
        report,
        "  status: the row says {wanted} but there came {found}\n"
    );
    false
}

/// Whether what came out is what the row says. Where it is not, the report says how it differs.
pub fn judge(
    alloc: Global,
    report: &mut String,
    row: &Row,
    outcome: &Outcome,
) -> Result<bool, AllocError>
    ensures { IfOk result (λ yes. yes ≡ agrees row.now outcome.now) }
{
    let children = call_lines(alloc, outcome.children.calls())?;
    let mut told = Lines::new(alloc);
    let status = same_status(&mut told, row, outcome);
    let wanted = row.bytes(Kind::Out, "");
    let out = same(&mut told, "out", "", wanted, outcome.out.bytes());
    let wanted = row.bytes(Kind::Err, "");
    let err = same(&mut told, "err", "", wanted, outcome.err.bytes());
    let files = same_files(&mut told, row, outcome);
    let first = same_sent(&mut told, row, outcome, "1");
    let second = same_sent(&mut told, row, outcome, "2");
    let third = same_sent(&mut told, row, outcome, "3");
    let wanted = row.bytes(Kind::Calls, "");
    let calls = same(&mut told, "calls", "", wanted, children.as_bytes());
    let text = told.whole()?;
    report.push_str(text.as_str())?;
    Ok(status & out & err & files & first & second & third & calls)
}
