// What `gather` does.
ghost use Rattle.std.specs.Prelude.{◌≡◌, IfOk, IfErr, string_bytes};
ghost use Rattle.command_frame.specs.Answer.{effect_of};
ghost use Rattle.command_frame.specs.Reads.{EndsDone, OnlyRead, Gives, KeepsTo, PlanNames, StopsReading};
ghost use Rattle.command_words.specs.Views.{gather_ask};
ghost use Rattle.gather_command.specs.Gather.{gather_effect, gather_of, gather_paths, gathered_paths, lens_line, name_line, IsGatherStop};

use crate::shares::read_shares;
use crate::{GatherErr, gather};
use command_frame::{Content, Plan, PlannedWrite, Status, Stop, refused};
use command_words::GatherWords;
use input_share::{ShareFile, write_share};
use outside::Files;
use program_commands::read_share_file;
use std::alloc::{AllocError, Global};

// The line of a name that two inputs have.
#[tactic(auto, unfolding(crate::specs::Gather::name_line))]
fn name_text(alloc: Global, name: &str) -> Result<String, AllocError>
    ensures { IfOk result (λ text. string_bytes text ≡ name_line name.now) }
{
    format!(in alloc; "error: G1 {name}\n")
}

// The line of a file whose lengths don't go with those before it.
#[tactic(auto, unfolding(crate::specs::Gather::lens_line))]
fn lens_text(alloc: Global, file: u64) -> Result<String, AllocError>
    ensures { IfOk result (λ text. string_bytes text ≡ lens_line file) }
{
    format!(in alloc; "error: G2 file {file}\n")
}

// Why files are not gathered.
fn gather_stop(alloc: Global, refusal: &GatherErr) -> Stop
    ensures { IsGatherStop refusal.now result }
{
    match refusal {
        GatherErr::NameTwice(name) => refused(Status::Input, name_text(alloc, name.as_str())),
        GatherErr::OtherLengths { file } => refused(Status::Input, lens_text(alloc, *file)),
        GatherErr::Memory => Stop::Memory,
    }
}

// What is to be written of a share file.
#[tactic(auto, unfolding(crate::specs::Gather::gathered_paths))]
fn gathered_plan(alloc: Global, to: &String, file: &ShareFile) -> Result<Plan, AllocError>
    ensures effect { IfOk result (λ plan. effect_of plan ≡ gather_effect (string_bytes to.now) file.now) }
    ensures names { IfOk result (PlanNames (gathered_paths (string_bytes to.now))) }
    ensures ends { EndsDone result }
{
    let mut writes = Vec::new(alloc);
    writes.push(PlannedWrite {
        path: to.clone()?,
        content: Content::Bytes(write_share(alloc, file)?),
    })?;
    Ok(Plan {
        writes,
        text: Vec::new(alloc),
        status: Status::Done,
    })
}

/// Reads and checks the share files, and says what is to be written: the file of all of them. Files of which two inputs have one name, or
/// whose tapes' lengths don't go together, are refused.
#[tactic(auto, unfolding(crate::specs::Gather::gather_of, crate::specs::Gather::gather_paths), using(command_frame::proofs::Naming::names_first, command_frame::proofs::Naming::names_later))]
pub fn plan_gather<F: Files>(
    alloc: Global,
    files: &mut F,
    words: &GatherWords,
) -> Result<Plan, Stop>
    ensures files { OnlyRead (F.state files.old) (F.state files.new) }
    ensures answer { Gives effect_of (F.state files.old) (F.state files.new) result
        (gather_of (gather_ask words.now) (F.state files.old).contents) }
    ensures anyhow { IfErr result (StopsReading (F.state files.old) (F.state files.new)) }
    ensures names { KeepsTo (gather_paths (gather_ask words.now)) (gathered_paths (gather_ask words.now).to) result }
    ensures ends { EndsDone result }
{
    let first = read_share_file(alloc, files, words.miner, &words.first)?;
    let more = read_shares(alloc, files, words.miner, &words.more)?;
    match gather(alloc, &first, &more) {
        Ok(file) => Ok(gathered_plan(alloc, &words.to, &file)?),
        Err(refusal) => Err(gather_stop(alloc, &refusal)),
    }
}
