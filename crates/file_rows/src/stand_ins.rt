// The objects in memory: what calls answer, with those that are to fail.
use outside::{
    Failed, FileErr, Files, Links, MemFiles, MemLinks, MemSink, MemSpawner, Sink, SpawnCall,
    SpawnErr, Spawner, put_all,
};
use row_files::Lines;
use std::alloc::{AllocError, Global};
use std::fmt::{Debug, Display};

fn note<D: Debug + Drop>(lines: &mut Lines, answer: D) {
    write!(lines, " {answer:?}");
}

fn note_bytes(lines: &mut Lines, bytes: &[u8]) {
    note(lines, str::from_utf8(bytes).unwrap_or("no text"));
}

fn note_read(lines: &mut Lines, found: Result<Vec<u8>, FileErr>) {
    match found {
        Ok(bytes) => note_bytes(lines, &bytes),
        Err(error) => note(lines, error),
    }
}

fn files(alloc: Global) -> Result<MemFiles, AllocError> {
    let mut files = MemFiles::new(alloc, vec![in alloc; 2, 4]?);
    files.place(alloc, "a", b"one")?;
    Ok(files)
}

// Three reads, of which the second asks for what is not there and the third fails, and two writes, of which the second fails.
fn tell_files(alloc: Global, lines: &mut Lines, files: &mut MemFiles) {
    lines.add("files:");
    note_read(lines, files.read(alloc, "a"));
    note_read(lines, files.read(alloc, "b"));
    note_read(lines, files.read(alloc, "a"));
    note(lines, files.write(alloc, "a", b"two"));
    note(lines, files.write(alloc, "a", b"three"));
    note(lines, files.get("b").is_some());
    note_bytes(lines, files.get("a").unwrap_or(b"nothing"));
}

// A sink that takes all, in pieces.
fn tell_whole(alloc: Global, lines: &mut Lines) {
    let mut whole = MemSink::new(alloc, Vec::new(alloc));
    lines.add("\nsinks:");
    note(lines, whole.put(b"twelve bytes"));
    note(lines, put_all(&mut whole, b", then seventeen"));
    note_bytes(lines, whole.bytes());
}

fn cut(alloc: Global) -> Result<MemSink, AllocError> {
    let failing = vec![in alloc; 1]?;
    Ok(MemSink::new(alloc, failing))
}

// A sink whose second call fails.
fn tell_cut(lines: &mut Lines, cut: &mut MemSink) {
    note(lines, put_all(cut, b"twelve bytes"));
    note_bytes(lines, cut.bytes());
}

fn note_received(lines: &mut Lines, into: &[u8], count: Result<usize, FileErr>) {
    match count {
        Ok(count) => note_bytes(lines, &into[..count.min(into.len())]),
        Err(error) => note(lines, error),
    }
}

// What so many calls receive from the second miner.
fn tell_second(lines: &mut Lines, links: &mut MemLinks) {
    let mut into = [0u8; 9];
    for _ in 0..3u32 {
        let count = links.recv(2, &mut into);
        note_received(lines, &into, count);
    }
}

// And from the third.
fn tell_third(lines: &mut Lines, links: &mut MemLinks) {
    let mut into = [0u8; 9];
    for _ in 0..2u32 {
        let count = links.recv(3, &mut into);
        note_received(lines, &into, count);
    }
}

fn links(alloc: Global) -> Result<MemLinks, AllocError> {
    let mut links = MemLinks::new(alloc, vec![in alloc; 5]?);
    links.arrive(2, b"from two")?;
    links.arrive(3, b"3")?;
    Ok(links)
}

// Links of which a call fails, and that have no more than what arrived.
fn tell_links(lines: &mut Lines, links: &mut MemLinks) {
    lines.add("\nlinks:");
    note(lines, links.connect(1, 4000));
    note(lines, links.send(3, b"to three"));
    tell_second(lines, links);
    tell_third(lines, links);
    note_bytes(lines, links.sent(3));
    note_bytes(lines, links.sent(2));
}

fn waits(calls: &[SpawnCall]) -> usize {
    calls
        .iter()
        .filter(|call| matches!(call, SpawnCall::Awaited(1)))
        .count()
}

fn children(alloc: Global) -> Result<MemSpawner, AllocError> {
    let failing = vec![in alloc; 1]?;
    Ok(MemSpawner::new(alloc, vec![in alloc; 0, 5]?, failing))
}

fn words(alloc: Global) -> Result<Vec<String>, AllocError> {
    let word = String::from_str(alloc, "miner")?;
    Ok(vec![in alloc; word]?)
}

fn tell_starts(alloc: Global, lines: &mut Lines, children: &mut MemSpawner, words: &[String]) {
    let files = MemFiles::new(alloc, Vec::new(alloc));
    for _ in 0..3u32 {
        note(lines, children.start(alloc, &files, words));
    }
}

// Three starts, of which the second fails, and two waits, of which the second is for no child; how many calls, and how many waits.
fn tell_children(alloc: Global, lines: &mut Lines, children: &mut MemSpawner) {
    lines.add("\nchildren:");
    match words(alloc) {
        Ok(words) => tell_starts(alloc, lines, children, &words),
        Err(AllocError) => lines.run_short(),
    }
    note(lines, children.wait(1));
    note(lines, children.wait(2));
    note(lines, children.calls().len());
    note(lines, waits(children.calls()));
}

fn note_error<D: Display + Drop>(lines: &mut Lines, error: D) {
    write!(lines, "{error}\n");
}

fn tell_errors(lines: &mut Lines) {
    lines.add("\n");
    note_error(lines, FileErr::Memory);
    note_error(lines, FileErr::Failed);
    note_error(lines, Failed);
    note_error(lines, SpawnErr::Memory);
    note_error(lines, SpawnErr::Failed);
}

// The lines of sinks.
fn tell_sinks(alloc: Global, lines: &mut Lines) {
    tell_whole(alloc, lines);
    match cut(alloc) {
        Ok(mut cut) => tell_cut(lines, &mut cut),
        Err(AllocError) => lines.run_short(),
    }
}

/// The lines of files, sinks, links, children and errors.
pub fn tell(alloc: Global, lines: &mut Lines) {
    match files(alloc) {
        Ok(mut files) => tell_files(alloc, lines, &mut files),
        Err(AllocError) => lines.run_short(),
    }
    tell_sinks(alloc, lines);
    match links(alloc) {
        Ok(mut links) => tell_links(lines, &mut links),
        Err(AllocError) => lines.run_short(),
    }
    match children(alloc) {
        Ok(mut children) => tell_children(alloc, lines, &mut children),
        Err(AllocError) => lines.run_short(),
    }
    tell_errors(lines);
}
