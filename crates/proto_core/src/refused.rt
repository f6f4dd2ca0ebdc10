ghost use Rattle.std.specs.Prelude.{◌≡◌, ◌≢◌};
ghost use Rattle.proto_core.specs.Refusals.{WrongLength};

/// Why a protocol refuses a message.
#[derive(Clone, Copy, Debug)]
pub enum BadMessage {
    /// The message has `have` words where `want` are awaited.
    BadLength { want: u64, have: u64 },
    /// The message's word number `place`, from 0, has to be 0 or 1 and is `word`.
    NotABit { place: u64, word: u64 },
}

/// A refused message: why, and the state that refused it, as it was before.
#[derive(Drop)]
pub struct Refused<T> {
    pub state: T,
    pub cause: BadMessage,
}

impl<T> Refused<T> {
    /// Hands a state back that awaits `want` words and was given `have`.
    pub fn wrong_length(state: T, want: usize, have: usize) -> Self
        requires { have ≢ want }
        ensures { WrongLength state want have result }
    {
        Refused {
            state,
            cause: BadMessage::BadLength {
                want: want as u64,
                have: have as u64,
            },
        }
    }
}
