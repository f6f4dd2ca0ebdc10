// Why a row file cannot be read.

/// Why a line of a row file cannot be read.
#[derive(Clone, Copy)]
pub enum Wrong {
    /// There was no memory for it.
    Memory,
    /// What is wrong with it.
    Said(&'static str),
}

/// What a line has wrong.
#[derive(Clone, Copy)]
pub(crate) enum Fault {
    Memory,
    Byte,
    Number,
    Tape,
    Size,
    Copies,
    Input,
    Escape,
    Between,
    Mark,
    Object,
    Child,
    Status,
    Peer,
    Line,
    Printed,
    Beginning,
}

impl Fault {
    // The fault in words.
    fn said(self) -> &'static str {
        match self {
            Fault::Memory => "out of memory",
            Fault::Byte => "a byte is two digits of 0-9 and a-f",
            Fault::Number => "here stand numbers below 2^64, in decimal",
            Fault::Tape => "a tape has at most 16777216 words",
            Fault::Size => "a text has at most 16777216 bytes",
            Fault::Copies => "a text is repeated at most 16777216 times",
            Fault::Input => "an input is NAME DOMAIN TYPE VALUE; the next comes after `; `",
            Fault::Escape => "behind a backslash stands n, r, t or a backslash",
            Fault::Between => "where a group has `between`, a `~` parts the text",
            Fault::Mark => "an `@` must stand at the place of the fault",
            Fault::Object => "calls fail of files, out, err, links or children",
            Fault::Child => "a child's status is a number",
            Fault::Status => "a status is a number below 256",
            Fault::Peer => "a peer is 1, 2 or 3",
            Fault::Line => "no line begins with this word",
            Fault::Printed => "a line that is printed stands below a `do`",
            Fault::Beginning => "a file begins with `group` or `row`",
        }
    }

    pub(crate) fn wrong(self) -> Wrong {
        match self {
            Fault::Memory => Wrong::Memory,
            _ => Wrong::Said(self.said()),
        }
    }
}
