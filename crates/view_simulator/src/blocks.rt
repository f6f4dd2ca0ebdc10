// The messages that a whole gate brings a miner, block after block.
ghost use Rattle.std.specs.Prelude.{OnOk};
ghost use Rattle.joint_run.specs.Exchanges.{protocol_of};
ghost use Rattle.view_simulator.specs.Sources.{IsDrawn, Brings, gate_mail};

use crate::mails::Mails;
use crate::rows::add_block;
use crate::sources::Sources;
use gates::BLOCK_LEN;
use joint_run::Exchange;
use proto_core::Number;
use std::alloc::AllocError;

/// The messages that a gate brings the miner, after those that came before.
pub(crate) fn add_blocks(
    exchange: Exchange,
    miner: Number,
    sources: Sources,
    mails: &mut Mails,
) -> Result<(), AllocError>
    requires { IsDrawn (protocol_of exchange) sources }
    ensures { OnOk result (Brings miner (gate_mail (protocol_of exchange) miner sources.entry) mails.old mails.new) }
{
    let mut rest = sources;
    while rest.u.len() > 0 {
        let m = rest.u.len().min(BLOCK_LEN as usize);
        let (block, behind) = rest.split(exchange, m);
        add_block(exchange, miner, &block, mails)?;
        rest = behind;
    }
    Ok(())
}
