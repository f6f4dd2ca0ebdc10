// The command `deal`.
ghost use Rattle.std.specs.Prelude.{◌≡◌, ◌∷◌, ◌++◌, [], IfOk, IfErr, OnOk, string_bytes, codes};
ghost use Rattle.command_frame.specs.Answer.{effect_of, writes_of};
ghost use Rattle.command_frame.specs.Reads.{EndsDone, OnlyRead, Gives, KeepsTo, StopsReading};
ghost use Rattle.command_frame.specs.Stops.{IsRefusalFor};
ghost use Rattle.command_words.specs.Views.{deal_ask};
ghost use Rattle.input_share.specs.Written.{file_bytes};
ghost use Rattle.tape_file.specs.Format.{own_bytes};
ghost use Rattle.program_commands.specs.Deal.{short_tape, deal_of, deal_paths, written_paths};
ghost use Rattle.program_commands.specs.Paths.{file_of};

use crate::readers::{read_inputs, read_tape_file, refusal_of};
use crate::writes::add_write;
use command_frame::{Content, Plan, PlannedWrite, Status, Stop};
use command_words::DealWords;
use input_share::{DealErr, Dealt, ShareFile, deal, write_share};
use outside::Files;
use sc_text::Fault;
use std::alloc::{AllocError, Global};
use tape_file::{Tapes, write_own};

// That the dealer's tape is too short.
#[tactic(auto, unfolding(crate::specs::Deal::short_tape))]
fn short_stop(alloc: Global, need: u128, have: u64) -> Stop
    ensures { IsRefusalFor (short_tape need have) result }
{
    refusal_of(alloc, Status::Tape, &Fault::ShortTape { need, have })
}

// Adds a share file that is to be written.
fn add_share(
    alloc: Global,
    writes: &mut Vec<PlannedWrite>,
    prefix: &str,
    suffix: &str,
    file: &ShareFile,
) -> Result<(), AllocError>
    ensures { OnOk result (writes_of writes.new.items ≡ writes_of writes.old.items ++ file_of prefix.now suffix.now (file_bytes file.now) ∷ []) }
{
    let bytes = write_share(alloc, file)?;
    add_write(alloc, writes, prefix, suffix, Content::Bytes(bytes))
}

// Adds a miner's tape file that is to be written.
fn add_tape(
    alloc: Global,
    writes: &mut Vec<PlannedWrite>,
    prefix: &str,
    suffix: &str,
    words: &[u64],
) -> Result<(), AllocError>
    ensures { OnOk result (writes_of writes.new.items ≡ writes_of writes.old.items ++ file_of prefix.now suffix.now (own_bytes words.now) ∷ []) }
{
    let bytes = write_own(alloc, words)?;
    add_write(alloc, writes, prefix, suffix, Content::Bytes(bytes))
}

/// The six files of a dealing in order, at paths after the prefix: the share files of miners 1, 2 and 3, then their tape files.
pub fn deal_writes(
    alloc: Global,
    prefix: &String,
    dealt: &Dealt,
    tapes: &Tapes,
) -> Result<Vec<PlannedWrite>, AllocError>
    ensures { IfOk result (λ writes. writes_of writes.items ≡
        file_of (string_bytes prefix.now) (codes ".1") (file_bytes dealt.now.first)
        ∷ file_of (string_bytes prefix.now) (codes ".2") (file_bytes dealt.now.second)
        ∷ file_of (string_bytes prefix.now) (codes ".3") (file_bytes dealt.now.third)
        ∷ file_of (string_bytes prefix.now) (codes ".t1") (own_bytes tapes.now.one)
        ∷ file_of (string_bytes prefix.now) (codes ".t2") (own_bytes tapes.now.two)
        ∷ file_of (string_bytes prefix.now) (codes ".t3") (own_bytes tapes.now.three) ∷ []) }
{
    let mut writes = Vec::new(alloc);
    add_share(alloc, &mut writes, prefix, ".1", &dealt.first)?;
    add_share(alloc, &mut writes, prefix, ".2", &dealt.second)?;
    add_share(alloc, &mut writes, prefix, ".3", &dealt.third)?;
    add_tape(alloc, &mut writes, prefix, ".t1", tapes.miner1())?;
    add_tape(alloc, &mut writes, prefix, ".t2", tapes.miner2())?;
    add_tape(alloc, &mut writes, prefix, ".t3", tapes.miner3())?;
    Ok(writes)
}

/// Reads and checks the files, deals, and says what is to be written.
#[tactic(auto, unfolding(crate::specs::Deal::deal_of, crate::specs::Deal::deal_paths), using(command_frame::proofs::Naming::names_first, command_frame::proofs::Naming::names_later))]
pub fn plan_deal<F: Files>(alloc: Global, files: &mut F, words: &DealWords) -> Result<Plan, Stop>
    ensures files { OnlyRead (F.state files.old) (F.state files.new) }
    ensures answer { Gives effect_of (F.state files.old) (F.state files.new) result
        (deal_of (deal_ask words.now) (F.state files.old).contents) }
    ensures anyhow { IfErr result (StopsReading (F.state files.old) (F.state files.new)) }
    ensures names { KeepsTo (deal_paths (deal_ask words.now)) (written_paths (deal_ask words.now).to) result }
    ensures ends { EndsDone result }
{
    let inputs = read_inputs(alloc, files, &words.input)?;
    let tapes = read_tape_file(alloc, files, &words.tape)?;
    match deal(alloc, &inputs, tapes.dealer(), tapes.lengths()) {
        Ok(dealt) => Ok(Plan {
            writes: deal_writes(alloc, &words.to, &dealt, &tapes)?,
            text: Vec::new(alloc),
            status: Status::Done,
        }),
        Err(DealErr::TapeShort { need, have }) => Err(short_stop(alloc, need, have)),
        Err(DealErr::Memory) => Err(Stop::Memory),
    }
}
