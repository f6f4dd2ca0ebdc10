ghost use Rattle.std.specs.Prelude.{◌≡◌, Some};
ghost use Rattle.sc_text.specs.End.{trap_word, owner_digit, ending_text, end_line};

use std::fmt;

/// What a run trapped on.
#[derive(Clone, Copy)]
pub enum TrapKind {
    /// Two arrays of different sizes.
    Length,
    /// A public divisor that is 0.
    Div,
    /// An index that is not below the size.
    Index,
    /// No input of that name, or one of another secrecy, type or shape.
    Argument,
    /// A call deeper than the limit.
    Depth,
    /// An assertion that fails.
    Assert,
    /// An array of too many elements.
    Large,
}

impl TrapKind {
    /// The word for the trap.
    #[tactic(auto, unfolding(crate::specs::End::trap_word))]
    pub fn word(self) -> &'static str
        ensures { result.now ≡ trap_word self }
    {
        match self {
            TrapKind::Length => "Length",
            TrapKind::Div => "Div",
            TrapKind::Index => "Index",
            TrapKind::Argument => "Argument",
            TrapKind::Depth => "Depth",
            TrapKind::Assert => "Assert",
            TrapKind::Large => "Large",
        }
    }
}

/// Writes the word for the trap.
impl fmt::Display for TrapKind {
    ghost output = { λ kind. Some (trap_word kind) };

    fn fmt<W: fmt::Write>(&self, f: &mut fmt::Formatter<W>) -> fmt::Result {
        f.write_str(self.word())
    }
}

/// Whose tape of random words it is.
#[derive(Clone, Copy)]
pub enum TapeOwner {
    Dealer,
    Miner1,
    Miner2,
    Miner3,
}

impl TapeOwner {
    /// The digit for the owner: 0 for the dealer, else the miner's number.
    #[tactic(auto, unfolding(crate::specs::End::owner_digit))]
    pub fn digit(self) -> &'static str
        ensures { result.now ≡ owner_digit self }
    {
        match self {
            TapeOwner::Dealer => "0",
            TapeOwner::Miner1 => "1",
            TapeOwner::Miner2 => "2",
            TapeOwner::Miner3 => "3",
        }
    }
}

/// Writes the owner's digit.
impl fmt::Display for TapeOwner {
    ghost output = { λ owner. Some (owner_digit owner) };

    fn fmt<W: fmt::Write>(&self, f: &mut fmt::Formatter<W>) -> fmt::Result {
        f.write_str(self.digit())
    }
}

/// How a run ended, without its cost.
#[derive(Clone, Copy)]
pub enum Ending {
    Done,
    /// A trap, and the line where its construct begins, from 1.
    Trap {
        kind: TrapKind,
        line: u32,
    },
    /// The next charge would have brought the cost over the budget.
    Budget,
    /// A tape has fewer words than the run needs of it.
    Tape {
        owner: TapeOwner,
        need: u128,
        have: u64,
    },
}

/// Writes how the run ended, as in `trap Div line 2`, with no newline.
impl fmt::Display for Ending {
    ghost output = { λ ending. Some (ending_text ending) };

    #[tactic(auto, unfolding(crate::specs::End::ending_text))]
    fn fmt<W: fmt::Write>(&self, f: &mut fmt::Formatter<W>) -> fmt::Result {
        match self {
            Ending::Done => f.write_str("done"),
            Ending::Trap { kind, line } => write!(f, "trap {kind} line {line}"),
            Ending::Budget => f.write_str("budget"),
            Ending::Tape { owner, need, have } => {
                write!(f, "tape {owner} need {need} have {have}")
            }
        }
    }
}

/// How a run ended, and what it cost until then.
#[derive(Clone, Copy)]
pub struct End {
    pub how: Ending,
    pub cost: u64,
}

/// Writes the last line of the run's text, with its newline.
impl fmt::Display for End {
    ghost output = { λ end. Some (end_line end) };

    #[tactic(auto, unfolding(crate::specs::End::end_line))]
    fn fmt<W: fmt::Write>(&self, f: &mut fmt::Formatter<W>) -> fmt::Result {
        let (how, cost) = (self.how, self.cost);
        writeln!(f, "end {how} cost {cost}")
    }
}
