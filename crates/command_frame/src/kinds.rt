// What some faults are about.
ghost use Rattle.std.specs.Prelude.{Some};
ghost use Rattle.command_frame.specs.Faults.{byte_code, field_word, step_code};

use std::fmt;

/// What is wrong with the bytes of code.
#[derive(Clone, Copy)]
pub enum ByteFault {
    /// B1: they end too early.
    Truncated,
    /// B2: a byte that can't stand there.
    BadTag,
    /// B3: another version.
    BadVersion,
    /// B4: they go on.
    Trailing,
}

/// Writes the fault's code.
impl fmt::Display for ByteFault {
    ghost output = { λ fault. Some (byte_code fault) };

    #[tactic(auto, unfolding(crate::specs::Faults::byte_code))]
    fn fmt<W: fmt::Write>(&self, f: &mut fmt::Formatter<W>) -> fmt::Result {
        f.write_str(match self {
            ByteFault::Truncated => "B1",
            ByteFault::BadTag => "B2",
            ByteFault::BadVersion => "B3",
            ByteFault::Trailing => "B4",
        })
    }
}

/// What is wrong with an instruction of code.
#[derive(Clone, Copy)]
pub enum StepFault {
    /// B5: a register, function or name that isn't there.
    BadRegister,
    /// B6: operands of other kinds.
    BadKind,
    /// B7: a target that can't be jumped to, or no return at the end.
    BadJump,
}

/// Writes the fault's code.
impl fmt::Display for StepFault {
    ghost output = { λ fault. Some (step_code fault) };

    #[tactic(auto, unfolding(crate::specs::Faults::step_code))]
    fn fmt<W: fmt::Write>(&self, f: &mut fmt::Formatter<W>) -> fmt::Result {
        f.write_str(match self {
            StepFault::BadRegister => "B5",
            StepFault::BadKind => "B6",
            StepFault::BadJump => "B7",
        })
    }
}

/// A field of the hello that two miners send one another.
#[derive(Clone, Copy)]
pub enum HelloField {
    Version,
    Sender,
    Receiver,
    Code,
    Public,
}

/// Writes the field's name.
impl fmt::Display for HelloField {
    ghost output = { λ field. Some (field_word field) };

    #[tactic(auto, unfolding(crate::specs::Faults::field_word))]
    fn fmt<W: fmt::Write>(&self, f: &mut fmt::Formatter<W>) -> fmt::Result {
        f.write_str(match self {
            HelloField::Version => "version",
            HelloField::Sender => "sender",
            HelloField::Receiver => "receiver",
            HelloField::Code => "code",
            HelloField::Public => "public",
        })
    }
}
