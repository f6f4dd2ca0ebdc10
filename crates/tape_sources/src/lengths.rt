// The lengths that stand at the beginning of a tape file.
ghost use Rattle.std.specs.Prelude.{◌≡◌, IfNone};
ghost use Rattle.tape_file.specs.Format.{lengths_fault, own_length_fault, size_fault, IsSized};
ghost use Rattle.tape_sources.specs.Lengths.{IsOwnSized};

/// The most words that a tape in a file has.
const MAX_WORDS: u64 = 16_777_216;

/// The size of a file of four tapes, and their lengths, which it is sized by.
#[derive(Clone, Copy)]
pub struct TapeLengths {
    pub size: u64,
    pub dealer: u64,
    pub miner1: u64,
    pub miner2: u64,
    pub miner3: u64,
    pub ghost sized: { IsSized dealer miner1 miner2 miner3 size },
}

// Where a file of another size than its lengths ask for is at fault.
fn size_fault(wanted: u64, size: u64) -> Option<u64>
    ensures fault { result ≡ size_fault wanted size }
    ensures exact { IfNone result (size ≡ wanted) }
{
    if size == wanted {
        None
    } else {
        Some(wanted.min(size))
    }
}

/// The place of the first fault in four lengths and in the file's size, if there is one.
#[tactic(auto, unfolding(tape_file::specs::Format::lengths_fault))]
pub(crate) fn lengths_fault(
    dealer: u64,
    miner1: u64,
    miner2: u64,
    miner3: u64,
    size: u64,
) -> Option<u64>
    ensures fault { result ≡ lengths_fault dealer miner1 miner2 miner3 size }
    ensures sized { IfNone result (IsSized dealer miner1 miner2 miner3 size) }
{
    if dealer > MAX_WORDS {
        return Some(0);
    }
    if miner1 > MAX_WORDS {
        return Some(8);
    }
    if miner2 > MAX_WORDS {
        return Some(16);
    }
    if miner3 > MAX_WORDS {
        return Some(24);
    }
    size_fault(32 + 8 * (dealer + miner1 + miner2 + miner3), size)
}

/// The place of the first fault in the length of an own tape, which is to be `wanted`, and in the file's size, if there is one.
#[tactic(auto, unfolding(tape_file::specs::Format::own_length_fault))]
pub(crate) fn own_length_fault(wanted: u64, len: u64, size: u64) -> Option<u64>
    ensures fault { result ≡ own_length_fault wanted len size }
    ensures sized { IfNone result (IsOwnSized wanted len size) }
{
    if len > MAX_WORDS || len != wanted {
        return Some(0);
    }
    size_fault(8 + 8 * len, size)
}
