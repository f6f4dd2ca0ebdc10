ghost use Rattle.std.specs.Prelude.{◌≡◌, true};
ghost use Rattle.command_frame.specs.Status.{is_end};

use crate::Status;
use view_text::View;

/// What a file is to hold.
pub enum Content {
    /// These bytes, which are written at once.
    Bytes(Vec<u8>),
    /// The text of a miner's view: its first line is written, and what comes after it is made and appended piece by piece.
    View(View),
}

// Written out, so that an early exit calls this once.
impl Drop for Content {
    fn drop(self) {
        match self {
            Content::Bytes(_) | Content::View(_) => {}
        }
    }
}

/// One file that a command is to write: its path and what it is to hold.
pub struct PlannedWrite {
    pub path: String,
    pub content: Content,
}

// Written out, as that of `Content`.
impl Drop for PlannedWrite {
    fn drop(self) {
        match self {
            PlannedWrite {
                path: _,
                content: _,
            } => {}
        }
    }
}

/// What a command that isn't refused does: it writes its files in order, then prints its text, and ends with its status.
pub struct Plan {
    pub writes: Vec<PlannedWrite>,
    pub text: Vec<u8>,
    pub status: Status,
    pub ghost ends: { is_end status ≡ true },
}

// Written out, as that of `Content`.
impl Drop for Plan {
    fn drop(self) {
        match self {
            Plan {
                writes: _,
                text: _,
                status: _,
            } => {}
        }
    }
}
