// Frames: a message between two miners, as bytes.
ghost use Rattle.std.specs.Prelude.{◌≡◌, ◌+◌, ◌*◌, ◌<◌, ◌≤◌, ◌∷◌, ◌++◌, length, IfOk, OnOk, OnErr};
ghost use Rattle.byteorder.specs.Endian.{little_bytes};
ghost use Rattle.tape_file.specs.Format.{word_at, word_bytes, words_at};
ghost use Rattle.wire.specs.Frames.{IsCount, frame_bytes, header_of};

use crate::bad_frame::BadFrame;
use byteorder::{ByteOrder, LittleEndian};
use proto_core::Msg;
use std::alloc::AllocError;

/// The first byte of each frame.
const FRAME: u8 = 1;

/// The most words that a frame has.
const MAX_WORDS: u32 = 2048;

/// The first five bytes of the frame of so many words.
fn header(count: u32) -> [u8; 5]
    ensures { result ≡ 1 ∷ little_bytes 4 count }
{
    let [first, second, third, fourth] = count.to_le_bytes();
    [FRAME, first, second, third, fourth]
}

/// The 8 bytes of a word.
#[tactic(auto, unfolding(tape_file::specs::Format::word_bytes))]
fn word_bytes(word: u64) -> [u8; 8]
    ensures { result ≡ word_bytes word }
{
    let mut bytes = [0; 8];
    LittleEndian::write_u64(&mut bytes, word);
    bytes
}

/// The word in the 8 bytes from `place` on.
#[tactic(auto, unfolding(tape_file::specs::Format::word_at))]
fn word(place: usize, bytes: &[u8]) -> u64
    requires { place + 8 ≤ length bytes.now }
    ensures { result ≡ word_at place bytes.now }
{
    LittleEndian::read_u64(&bytes[place..])
}

/// Appends the frame of these words: byte 1, their count in 4 bytes, then the words in 8 bytes each, all with the lowest byte first.
///
/// The frame of no words can be written, and `read_header` refuses it. With no memory left the bytes are as before.
pub fn frame_words(words: &[u64], out: &mut Vec<u8>) -> Result<(), AllocError>
    requires { length words.now ≤ 2048 }
    ensures ok { OnOk result (out.new.items ≡ out.old.items ++ frame_bytes words.now) }
    ensures err { OnErr result (out.new.items ≡ out.old.items) }
{
    out.reserve(5 + 8 * words.len())?;
    out.extend_from_slice(&header(words.len() as u32))?;
    for word in words {
        out.extend_from_slice(&word_bytes(*word))?;
    }
    Ok(())
}

/// Appends the frame of a message, as `frame_words` does.
pub fn frame(msg: &Msg, out: &mut Vec<u8>) -> Result<(), AllocError>
    ensures ok { OnOk result (out.new.items ≡ out.old.items ++ frame_bytes msg.now) }
    ensures err { OnErr result (out.new.items ≡ out.old.items) }
{
    frame_words(msg.words(), out)
}

/// How many words the frame has of which these are the first five bytes: 1 to 2,048.
///
/// `BadFrame` is for a first byte other than 1 (place 0), and for a count of 0 or over 2,048 (place 1).
#[tactic(auto, unfolding(crate::specs::Frames::header_of))]
pub fn read_header(bytes: &[u8; 5]) -> Result<u32, BadFrame>
    ensures reads { result ≡ header_of bytes.now }
    ensures count { IfOk result IsCount }
{
    if bytes[0] != FRAME {
        return Err(BadFrame { place: 0 });
    }
    let count = LittleEndian::read_u32(&bytes[1..]);
    if count == 0 || count > MAX_WORDS {
        return Err(BadFrame { place: 1 });
    }
    Ok(count)
}

/// The message of the words that follow a header with this count, in 8 bytes each.
pub fn read_words(count: u32, bytes: &[u8]) -> Msg
    requires few { count ≤ 2048 }
    requires whole { length bytes.now ≡ 8 * count }
    ensures { result ≡ words_at 0 count bytes.now }
{
    let mut msg = Msg::new();
    for k in 0..count as usize {
        msg.push(word(8 * k, bytes));
    }
    msg
}
