// What came out where one call of an object failed, against what comes out where it does not.
ghost use Rattle.std.specs.Prelude.{◌≡◌, ◌≤◌, ◌++◌, IfOk, OnOk, drop, length, option_map, string_bytes, take};
ghost use Rattle.outside.specs.FileCall.{file_calls_of};
ghost use Rattle.outside.specs.Files.{file_at};
ghost use Rattle.outside.specs.MemFiles.{files_in, log_in};
ghost use Rattle.outside.specs.SpawnCall.{calls_of};
ghost use Rattle.row_files.specs.Calls.{calls_told};
ghost use Rattle.row_faults.specs.Faulted.{agrees_with_fault, answered_told, are_answered, calls_made as calls_of_object, changes, done_extent};
ghost use Rattle.row_faults.specs.Faulted.{action_word, file_call_told, file_line};
ghost use Rattle.row_faults.specs.Faulted.{fault_line, fault_status, file_calls_told, files_fit_then, fits_then, held_at, is_changed};
ghost use Rattle.row_faults.specs.Faulted.{is_last, is_line, is_extent, is_sent_extent, is_told_so, are_sent, made_before, path_at, printed_extent, same_bytes};

use outside::{FileAction, FileCall, SpawnCall};
use row_files::{Failing, Kind, Lines, Object, Outcome, Row, call_lines};
use std::alloc::{AllocError, Global};

/// How much of the bytes that come where nothing fails.
#[derive(Clone, Copy)]
pub(crate) enum Extent {
    Nothing,
    Front,
    Whole,
}

// Whether these bytes are of such an extent.
fn is_such(extent: Extent, whole: &[u8], found: &[u8]) -> bool
    ensures { result ≡ is_extent extent whole.now found.now }
{
    match extent {
        Extent::Nothing => b"".as_slice() == found,
        Extent::Front => whole.starts_with(found),
        Extent::Whole => whole == found,
    }
}

fn status_of(object: Object, good: u8) -> u8
    ensures { result ≡ fault_status object good }
{
    match object {
        Object::Files => 9,
        Object::Out => 16,
        Object::Err => good,
        Object::Links => 10,
        Object::Children => 12,
    }
}

fn printed(object: Object) -> Extent
    ensures { result ≡ printed_extent object }
{
    match object {
        Object::Files | Object::Links | Object::Children => Extent::Nothing,
        Object::Out => Extent::Front,
        Object::Err => Extent::Whole,
    }
}

fn done(object: Object) -> Extent
    ensures { result ≡ done_extent object }
{
    match object {
        Object::Files | Object::Links | Object::Children => Extent::Front,
        Object::Out | Object::Err => Extent::Whole,
    }
}

// Adds the line that tells of a file.
fn add_file_line(line: &mut String, call: Option<&FileCall>) -> Result<(), AllocError>
    ensures { OnOk result (string_bytes line.new ≡ string_bytes line.old ++ file_line (option_map (λ c. string_bytes c.now.path) call.entry)) }
{
    if let Some(call) = call {
        write!(line, "error: file {}\n", call.path.as_str())?;
    }
    Ok(())
}

// The line that tells of the object.
fn line_of(
    alloc: Global,
    object: Object,
    calls: &[FileCall],
    call: u64,
) -> Result<String, AllocError>
    ensures { IfOk result (λ line. string_bytes line ≡ fault_line object (path_at (file_calls_of calls.now) call)) }
{
    let mut line = String::new(alloc);
    match object {
        Object::Files => add_file_line(&mut line, calls.get(call as usize))?,
        Object::Out => line.push_str("error: write\n")?,
        Object::Err => {}
        Object::Links => line.push_str("error: link\n")?,
        Object::Children => line.push_str("error: child\n")?,
    }
    Ok(line)
}

// Whether the error stream has that line, or a front of what it had where it is the one that fails.
fn says(object: Object, line: &[u8], good: &[u8], found: &[u8]) -> bool
    ensures { result ≡ is_line object line.now good.now found.now }
{
    match object {
        Object::Err => good.starts_with(found),
        _ => line == found,
    }
}

// Whether a call changes the file that it names.
fn changes_file(action: FileAction) -> bool
    ensures { result ≡ changes action }
{
    matches!(action, FileAction::Write | FileAction::Append)
}

// Whether one of the first calls changes the file with this path.
fn was_changed(calls: &[FileCall], made: usize, path: &str) -> bool
    ensures { result ≡ is_changed (take made (file_calls_of calls.now)) path.now }
{
    let mut calls = calls.iter().take(made);
    calls.any(|call| changes_file(call.action) && call.path.as_str() == path)
}

// Whether one of the later calls does.
fn will_be_changed(calls: &[FileCall], made: usize, path: &str) -> bool
    ensures { result ≡ is_changed (drop made (file_calls_of calls.now)) path.now }
{
    let mut calls = calls.iter().skip(made);
    calls.any(|call| changes_file(call.action) && call.path.as_str() == path)
}

fn same(one: Option<&[u8]>, other: Option<&[u8]>) -> bool
    ensures { result ≡ same_bytes (option_map (λ b. b.now) one.entry) (option_map (λ b. b.now) other.entry) }
{
    match (one, other) {
        (Some(one), Some(other)) => one == other,
        (None, None) => true,
        _ => false,
    }
}

// What the call found at a path.
fn held<'a>(row: &'a Row, path: &str) -> Option<&'a [u8]>
    ensures { option_map (λ b. b.now) result ≡ held_at row.now.texts.items path.now }
{
    match row.find(Kind::Held, path) {
        Some(text) => Some(&text.bytes),
        None => None,
    }
}

// Whether at a path there is what must be there once so many of the calls were made.
fn fits(row: &Row, good: &Outcome, made: usize, found: &Outcome, path: &str) -> bool
    ensures { result ≡ fits_then row.now good.now made found.now path.now }
{
    let calls = good.files.log();
    let now = found.files.get(path);
    if was_changed(calls, made, path) {
        will_be_changed(calls, made, path) || same(good.files.get(path), now)
    } else {
        same(held(row, path), now)
    }
}

// Whether that is so at each path that the row or a call names.
fn all_fit(row: &Row, good: &Outcome, made: usize, found: &Outcome) -> bool
    ensures { result ≡ files_fit_then row.now good.now made found.now }
{
    let mut texts = row.texts.iter();
    let mut calls = good.files.log().iter();
    let texts_fit = texts.all(|text| fits(row, good, made, found, text.name.as_str()));
    texts_fit & calls.all(|call| fits(row, good, made, found, call.path.as_str()))
}

// How many calls of files come before the fault.
fn made(failing: Failing, good: &Outcome, found: &Outcome) -> usize
    ensures { result ≡ made_before failing.object failing.call (length (log_in found.now.files)) (length (log_in good.now.files)) }
{
    match failing.object {
        Object::Files => failing.call as usize,
        Object::Out | Object::Err => good.files.log().len(),
        Object::Links => 0,
        Object::Children => found.files.log().len(),
    }
}

fn word_of(action: FileAction) -> &'static str
    ensures { result.now ≡ action_word action }
{
    match action {
        FileAction::Read => "read ",
        FileAction::Write => "write ",
        FileAction::Size => "size ",
        FileAction::ReadAt => "read_at ",
        FileAction::Append => "append ",
    }
}

fn add_file_call(lines: &mut String, call: &FileCall) -> Result<(), AllocError>
    ensures { OnOk result (string_bytes lines.new ≡ string_bytes lines.old ++ file_call_told (call.now.action, string_bytes call.now.path)) }
{
    lines.push_str(word_of(call.action))?;
    lines.push_str(call.path.as_str())?;
    lines.push_str("\n")
}

// The calls of a store as lines.
fn file_call_lines(alloc: Global, calls: &[FileCall]) -> Result<String, AllocError>
    ensures { IfOk result (λ lines. string_bytes lines ≡ file_calls_told (file_calls_of calls.now)) }
{
    let mut lines = String::new(alloc);
    for call in calls {
        add_file_call(&mut lines, call)?;
    }
    Ok(lines)
}

// The lines of calls, and of later ones.
fn both_lines(alloc: Global, first: &[SpawnCall], later: &[SpawnCall]) -> Result<String, AllocError>
    ensures { IfOk result (λ lines. string_bytes lines ≡ calls_told (calls_of first.now) ++ calls_told (calls_of later.now)) }
{
    let mut lines = call_lines(alloc, first)?;
    let more = call_lines(alloc, later)?;
    lines.push_str(more.as_str())?;
    Ok(lines)
}

// The lines of the calls of children that are answered where the one of this number fails.
fn answered_lines(alloc: Global, calls: &[SpawnCall], call: u64) -> Result<String, AllocError>
    ensures { IfOk result (λ lines. string_bytes lines ≡ answered_told (calls_of calls.now) call) }
{
    let number = call as usize;
    match calls.get(number) {
        Some(SpawnCall::Awaited(_)) => both_lines(alloc, &calls[..number], &calls[number + 1..]),
        Some(SpawnCall::Started { .. }) => call_lines(alloc, &calls[..number]),
        None => call_lines(alloc, calls),
    }
}

// Whether the calls of children are those that must be answered.
fn children_fit(
    alloc: Global,
    failing: Failing,
    good: &[SpawnCall],
    found: &[SpawnCall],
) -> Result<bool, AllocError>
    ensures { IfOk result (λ yes. yes ≡ are_answered failing.object failing.call (calls_of good.now) (calls_of found.now)) }
{
    let all = call_lines(alloc, good)?;
    let answered = answered_lines(alloc, good, failing.call)?;
    let lines = call_lines(alloc, found)?;
    let found = lines.as_bytes();
    Ok(match failing.object {
        Object::Files | Object::Links => all.as_bytes().starts_with(found),
        Object::Out | Object::Err => all.as_bytes() == found,
        Object::Children => answered.as_bytes() == found,
    })
}

// Whether the calls of files are a front of those that are made where nothing fails, or all.
fn same_file_calls(
    alloc: Global,
    object: Object,
    good: &Outcome,
    found: &Outcome,
) -> Result<bool, AllocError>
    ensures { IfOk result (λ yes. yes ≡
        is_extent (done_extent object) (file_calls_told (log_in good.now.files)) (file_calls_told (log_in found.now.files))) }
{
    let all = file_call_lines(alloc, good.files.log())?;
    let some = file_call_lines(alloc, found.files.log())?;
    Ok(is_such(done(object), all.as_bytes(), some.as_bytes()))
}

// Whether a peer was sent a front of what it is sent where nothing fails, or all.
fn sent_fits(object: Object, good: &Outcome, found: &Outcome, peer: u8) -> bool
    requires from { 1 ≤ peer }
    requires to { peer ≤ 3 }
    ensures { result ≡ is_sent_extent object good.now found.now peer }
{
    is_such(done(object), good.links.sent(peer), found.links.sent(peer))
}

/// How many calls of an object were made, failed ones too.
pub fn calls_made(object: Object, outcome: &Outcome) -> u64
    ensures { result ≡ calls_of_object object outcome.now }
{
    match object {
        Object::Files => outcome.files.calls_made(),
        Object::Out => outcome.out.calls_made(),
        Object::Err => outcome.err.calls_made(),
        Object::Links => outcome.links.calls_made(),
        Object::Children => outcome.children.calls_made(),
    }
}

// Whether no call of the object came after the one that failed, but of children.
fn ended(failing: Failing, good: &Outcome, found: &Outcome) -> bool
    ensures { result ≡ is_last failing.object failing.call good.now found.now }
{
    match failing.object {
        Object::Children => true,
        object => calls_made(object, found) as u128 == failing.call as u128 + 1,
    }
}

// Whether that is so. Where it is not, the report says what is wrong.
fn told(report: &mut Lines, is_so: bool, name: &str) -> bool
    ensures { result ≡ is_so }
{
    if !is_so {
        write!(report, "  {name}\n");
    }
    is_so
}

// Whether each peer was sent what it must be.
fn same_sent(report: &mut Lines, object: Object, good: &Outcome, found: &Outcome) -> bool
    ensures { result ≡ are_sent object good.now found.now }
{
    let first = told(
        report,
        sent_fits(object, good, found, 1),
        "peer 1 was sent other bytes",
    );
    let second = told(
        report,
        sent_fits(object, good, found, 2),
        "peer 2 was sent other bytes",
    );
    let third = told(
        report,
        sent_fits(object, good, found, 3),
        "peer 3 was sent other bytes",
    );
    first & second & third
}

// Whether the status and the streams are as they must be.
fn same_streams(
    report: &mut Lines,
    object: Object,
    line: &str,
    good: &Outcome,
    found: &Outcome,
) -> bool
    ensures { result ≡ is_told_so object line.now good.now found.now }
{
    let is_so = found.status == status_of(object, good.status);
    let status = told(report, is_so, "another status");
    let is_so = is_such(printed(object), good.out.bytes(), found.out.bytes());
    let out = told(report, is_so, "another output");
    let is_so = says(object, line.as_bytes(), good.err.bytes(), found.err.bytes());
    status & out & told(report, is_so, "another line on the error stream")
}

/// Whether a call in which one call of an object failed, and which else is the row's, came to what it must, by what the row's call came to. Where it
/// did not, the report says what is wrong.
pub fn judge_fault(
    alloc: Global,
    report: &mut String,
    row: &Row,
    good: &Outcome,
    failing: Failing,
    found: &Outcome,
) -> Result<bool, AllocError>
    ensures { IfOk result (λ yes. yes ≡ agrees_with_fault row.now good.now failing found.now) }
{
    let object = failing.object;
    let line = line_of(alloc, object, good.files.log(), failing.call)?;
    let children = children_fit(
        alloc,
        failing,
        good.children.calls(),
        found.children.calls(),
    )?;
    let calls = same_file_calls(alloc, object, good, found)?;
    let mut lines = Lines::new(alloc);
    let streams = same_streams(&mut lines, object, line.as_str(), good, found);
    let is_so = all_fit(row, good, made(failing, good, found), found);
    let files = told(&mut lines, is_so, "another file");
    let calls = told(&mut lines, calls, "other calls of files");
    let sent = same_sent(&mut lines, object, good, found);
    let children = told(&mut lines, children, "other calls of children");
    let last = told(
        &mut lines,
        ended(failing, good, found),
        "the object was called again",
    );
    let text = lines.whole()?;
    report.push_str(text.as_str())?;
    Ok(streams & files & calls & sent & children & last)
}
