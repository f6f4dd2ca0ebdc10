ghost use Rattle.std.specs.Prelude.{◌≡◌, ℕ, ◌+◌, ◌<◌, [], ◌∷◌};
ghost use Rattle.gates.specs.Blocks.{block_sizes};
ghost use Rattle.proto_core.specs.Protocol.{Protocol, Sound, Private};
ghost use Rattle.blocked_protocol.specs.Blocked.{Blockable, blocked};

/// Law: three miners that run a sound protocol block after block do what the joint equations of the blocks say, one
/// after another, by scripts that match.
pub fn blocks_keep_soundness()
    ensures { (p : Protocol) → Blockable p → Sound p → Sound (blocked p) }
{}

/// Law: what a miner sees of a private protocol that is run block after block is made, block by block, of its own
/// shares, the opened words and words that correspond one to one with those that the miners draw.
pub fn blocks_keep_privacy()
    ensures { (p : Protocol) → Blockable p → Sound p → Private p → Private (blocked p) }
{}

/// Law: blocks are cut off the front, each of 512 elements while there are as many; what is left is the last.
pub fn blocks_are_cut_off_the_front()
    ensures none { block_sizes 0 ≡ [] }
    ensures full { (n : ℕ) → block_sizes (512 + n) ≡ 512 ∷ block_sizes n }
    ensures last { (n : ℕ) → 0 < n → n < 512 → block_sizes n ≡ n ∷ [] }
{}
