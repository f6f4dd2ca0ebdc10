// Gates that send messages are run block by block.
ghost use Rattle.std.specs.Prelude.{◌≡◌, length};
ghost use Rattle.gates.specs.Blocks.{block_sizes, IsBlockCount};

/// How many elements a block has at most.
pub const BLOCK_LEN: u64 = 512;

/// How many blocks of at most 512 elements `n` elements take, each but the last one full: none for no element.
#[tactic(auto, using(crate::proofs::BlockSizes::block_count))]
pub fn blocks(n: u64) -> u64
    ensures blocks { result ≡ length (block_sizes n) }
    ensures fewest { IsBlockCount n result }
{
    n / BLOCK_LEN + u64::from(n % BLOCK_LEN != 0)
}
