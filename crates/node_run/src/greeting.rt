// The hello of a miner.
ghost use Rattle.std.specs.Prelude.{◌≡◌, IfOk};
ghost use Rattle.node_run.specs.Made.{hello_of};

use input_share::{ShareFile, shape_part};
use proto_core::Number;
use std::alloc::{AllocError, Global};
use value_file::write_public;
use wire::{Hello, public_digest};

/// The version of hellos and frames.
const VERSION: u8 = 2;

/// The hello of a miner with this share file, by the digest of its code file. What everybody knows of the run is told by a second digest: the
/// public part of the inputs, the budget, and the lengths of the tapes.
pub fn hello(
    alloc: Global,
    me: Number,
    code: [u8; 32],
    share: &ShareFile,
    budget: u64,
) -> Result<Hello, AllocError>
    ensures { IfOk result (λ hello. hello ≡ hello_of me code share.now budget) }
{
    let part = shape_part(alloc, share)?;
    let text = write_public(alloc, &part)?;
    let public = public_digest(alloc, &text, budget, &share.lens())?;
    Ok(Hello {
        version: VERSION,
        sender: me.as_u8(),
        receiver: 0,
        code,
        public,
    })
}
