// The file of a miner's own tape.
ghost use Rattle.std.specs.Prelude.{◌≡◌, ◌+◌, ◌*◌};

/// The file of a miner's own tape, which was opened: how many words it has, and its size in bytes. The words are read where they are drawn.
#[derive(Clone, Copy)]
pub struct TapeFile {
    pub words: u64,
    pub size: u64,
    pub ghost exact: { size ≡ 8 + 8 * words },
}
