ghost use Rattle.std.specs.Prelude.{◌≡◌};
ghost use Rattle.command_frame.specs.Objects.{status_of_object, line_of_object};

use crate::Status;

/// What of the outside failed, and counted a fault.
pub enum Object {
    /// A file could not be read or written: the line that names it.
    File(String),
    /// Standard output failed.
    Output,
    /// A link to a peer failed.
    Links,
    /// Another program could not be started or waited for.
    Children,
}

// Written out, so that an early exit calls this once.
impl Drop for Object {
    fn drop(self) {
        match self {
            Object::File(_) | Object::Output | Object::Links | Object::Children => {}
        }
    }
}

impl Object {
    /// The status that a command ends with whose object failed.
    pub fn status(&self) -> Status
        ensures { result ≡ status_of_object self.now }
    {
        match self {
            Object::File(_) => Status::File,
            Object::Output => Status::Write,
            Object::Links => Status::Link,
            Object::Children => Status::Child,
        }
    }

    /// The line for the error stream, with its newline.
    #[tactic(auto, unfolding(sc_text::specs::Fault::fault_line, sc_text::specs::Fault::fault_text))]
    pub fn line(&self) -> &[u8]
        ensures { result.now ≡ line_of_object self.now }
    {
        match self {
            Object::File(line) => line.as_bytes(),
            Object::Output => b"error: write\n",
            Object::Links => b"error: link\n",
            Object::Children => b"error: child\n",
        }
    }
}
