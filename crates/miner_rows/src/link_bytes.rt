// What miners send each other as bytes: frames, hellos and digests.
use proto_core::Msg;
use row_files::Lines;
use std::alloc::{AllocError, Global};
use wire::{
    BadFrame, Hello, code_digest, frame, frame_words, hello, mismatch, public_digest, read_header,
    read_hello, read_words,
};

// The heads of frames: of 2,048 words and of 16, then one word too many, none, and a first byte that no frame has.
const HEADS: [[u8; 5]; 5] = [
    [1, 0, 8, 0, 0],
    [1, 16, 0, 0, 0],
    [1, 1, 8, 0, 0],
    [1, 0, 0, 0, 0],
    [7, 0, 0, 0, 0],
];

// The words 258 and 2^63, the lowest byte first.
const WORDS: [u8; 16] = [2, 1, 0, 0, 0, 0, 0, 0, 0, 0, 0, 0, 0, 0, 0, 128];

// The code of a program that returns at once.
const CODE: [u8; 17] = [
    0x53, 0x43, 0x33, 0x50, 2, 0, 0, 1, 0, 0, 0, 0xff, 0, 0, 1, 0, 0x18,
];

const PUBLIC: &str = "{\"inputs\":[]}";

// Codes, of which three are messages of FIPS 180-4's examples.
const CODES: [&[u8]; 4] = [
    b"",
    b"abc",
    b"abcdbcdecdefdefgefghfghighijhijkijkljklmklmnlmnomnopnopq",
    &CODE,
];

// Bytes, two hexadecimal digits each.
fn add_hex(lines: &mut Lines, bytes: &[u8]) {
    lines.add(" ");
    for byte in bytes {
        write!(lines, "{byte:02x}");
    }
}

fn add_written(lines: &mut Lines, written: Result<Vec<u8>, AllocError>) {
    match written {
        Ok(bytes) => add_hex(lines, &bytes),
        Err(AllocError) => lines.run_short(),
    }
}

// The frame of three words, after a byte that is there.
fn words_framed(alloc: Global) -> Result<Vec<u8>, AllocError> {
    let mut bytes = vec![in alloc; 9u8]?;
    frame_words(&[10, 0, 0], &mut bytes)?;
    Ok(bytes)
}

// The frame of a message of one word.
fn message_framed(alloc: Global) -> Result<Vec<u8>, AllocError> {
    let mut bytes = Vec::new(alloc);
    frame(&Msg::from_words(&[u64::MAX - 1]), &mut bytes)?;
    Ok(bytes)
}

fn tell_head(lines: &mut Lines, head: [u8; 5]) {
    lines.add("head");
    add_hex(lines, &head);
    match read_header(&head) {
        Ok(count) => write!(lines, " has {count} words\n"),
        Err(BadFrame { place }) => write!(lines, " is bad at {place}\n"),
    }
}

// Frames that are written, their heads, and words that are read.
fn tell_frames(alloc: Global, lines: &mut Lines) {
    lines.add("frames");
    add_written(lines, words_framed(alloc));
    add_written(lines, message_framed(alloc));
    lines.add("\n");
    for head in HEADS {
        tell_head(lines, head);
    }
    let read = read_words(2, &WORDS);
    write!(lines, "words {:?}\n", read.words());
}

fn written(alloc: Global, sent: &Hello) -> Result<Vec<u8>, AllocError> {
    let mut bytes = Vec::new(alloc);
    hello(sent, &mut bytes)?;
    Ok(bytes)
}

// What is read of a hello's bytes, written again.
fn tell_again(alloc: Global, lines: &mut Lines, bytes: &[u8; 68]) {
    lines.add("hello again");
    match read_hello(bytes) {
        Ok(read) => add_written(lines, written(alloc, &read)),
        Err(BadFrame { place }) => write!(lines, " is bad at {place}"),
    }
    lines.add("\n");
}

// A hello's bytes, what is read of them, and the place of the fault once the first is 7.
fn tell_bytes(alloc: Global, lines: &mut Lines, bytes: &[u8]) {
    add_hex(lines, bytes);
    lines.add("\n");
    let mut all = [0; 68];
    if bytes.len() == all.len() {
        all.copy_from_slice(bytes);
    }
    tell_again(alloc, lines, &all);
    all[0] = 7;
    tell_again(alloc, lines, &all);
}

fn tell_hello(alloc: Global, lines: &mut Lines, sent: &Hello) {
    lines.add("hello");
    match written(alloc, sent) {
        Ok(bytes) => tell_bytes(alloc, lines, &bytes),
        Err(AllocError) => lines.run_short(),
    }
}

fn add_difference(lines: &mut Lines, expected: &Hello, came: &Hello) {
    match mismatch(expected, came) {
        Some(field) => write!(lines, " {field}"),
        None => lines.add(" none"),
    }
}

// What differs first of a hello that comes, as one field after another is made right, from the first to the last.
fn tell_differences(lines: &mut Lines, wanted: &Hello) {
    let other = [1; 32];
    let mut came = Hello {
        version: 1,
        sender: 1,
        receiver: 1,
        code: other,
        public: other,
    };
    lines.add("differs");
    add_difference(lines, wanted, &came);
    came.version = wanted.version;
    add_difference(lines, wanted, &came);
    came.sender = wanted.sender;
    add_difference(lines, wanted, &came);
    came.receiver = wanted.receiver;
    add_difference(lines, wanted, &came);
    came.code = wanted.code;
    add_difference(lines, wanted, &came);
    came.public = wanted.public;
    add_difference(lines, wanted, &came);
    lines.add("\n");
}

// The second miner's hello to the third, and what it awaits of the third and sends to the first.
fn tell_greeting(alloc: Global, lines: &mut Lines, public: [u8; 32]) {
    lines.add("public");
    add_hex(lines, &public);
    lines.add("\n");
    let sent = Hello {
        version: 2,
        sender: 2,
        receiver: 3,
        code: code_digest(&CODE),
        public,
    };
    tell_hello(alloc, lines, &sent);
    tell_differences(lines, &sent);
    let (back, first) = (sent.from_peer(3), sent.to_peer(1));
    write!(
        lines,
        "from {} to {}, from {} to {}\n",
        back.sender, back.receiver, first.sender, first.receiver
    );
}

/// The lines of frames, digests and hellos.
pub fn tell(alloc: Global, lines: &mut Lines) {
    tell_frames(alloc, lines);
    for code in CODES {
        lines.add("code");
        add_hex(lines, &code_digest(code));
        lines.add("\n");
    }
    match public_digest(alloc, PUBLIC.as_bytes(), 10_000_000, &[0, 4, 4, 4]) {
        Ok(public) => tell_greeting(alloc, lines, public),
        Err(AllocError) => lines.run_short(),
    }
}
