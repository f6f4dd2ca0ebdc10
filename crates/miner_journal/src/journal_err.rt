// Why a journal gives nothing.
ghost use Rattle.std.specs.Prelude.{◌≡◌};
ghost use Rattle.miner_journal.specs.Undone.{undone};

use outside::FileErr;

/// A file whose digest stands in a journal.
#[derive(Clone, Copy)]
pub enum KeptFile {
    Code,
    Share,
    Tape,
}

/// Why a call of a journal gave nothing.
#[derive(Clone, Copy, Drop)]
pub enum JournalErr {
    /// A call of the disk failed, and it counted a fault.
    DiskFault,
    /// There is no memory left.
    Memory,
    /// The journal is of another run: this is the first file that differs.
    OtherFile { file: KeptFile },
    /// There is no whole record after the open gate at this place, or no gate after that record.
    Broken { place: u64 },
}

impl From<FileErr> for JournalErr {
    ghost from_gives = { λ refused e. e ≡ undone refused };

    fn from(refused: FileErr) -> Self {
        match refused {
            FileErr::Failed => JournalErr::DiskFault,
            FileErr::Memory => JournalErr::Memory,
        }
    }
}
