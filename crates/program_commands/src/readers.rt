// Input, public, opened, tape and schedule files, read from their paths.
ghost use Rattle.std.specs.Prelude.{◌≡◌, ◌≢◌, ◌∷◌, [], true, IfOk, IfErr};
ghost use Rattle.outside.specs.Files.{SameSizes};
ghost use Rattle.command_frame.specs.Reads.{OnlyRead, Gives, StopNames};
ghost use Rattle.command_frame.specs.Status.{can_refuse};
ghost use Rattle.command_frame.specs.Stops.{IsRefusalFor};
ghost use Rattle.sc_text.specs.Fault.{fault_line};
ghost use Rattle.command_frame.specs.declared.status.Status.TheVariants.{Input};
ghost use Rattle.sc_text.specs.declared.fault.Fault.TheVariants.{Input as InputFile};
ghost use Rattle.input_share.specs.Reading.{AreWritable};
ghost use Rattle.value_file.specs.Input.{AreInputs};
ghost use Rattle.value_file.specs.PublicFile.{IsWritable};
ghost use Rattle.value_file.specs.declared.read_err.ReadErr.{ReadErr};
ghost use Rattle.program_commands.specs.Reading.{bad_input, bad_opened, bad_tape, bad_schedule, field_fault, top_fault};
ghost use Rattle.program_commands.specs.Reading.{entry_field, inputs_at, opened_at, public_at, published_at, share_at, tape_file_at, schedule_file_at};

use command_frame::{Status, Stop, read_file, refused};
use input_share::{ShareFile, read_share};
use outside::Files;
use proto_core::{Link, Number};
use sc_text::{EntryField, Fault, InputFault};
use std::alloc::Global;
use tape_file::Tapes;
use value_file::{Field, Inputs, PublicPart};

/// The refusal of what was read, with this status and the line of this fault; `Memory` where the line can't be made.
pub fn refusal_of(alloc: Global, status: Status, fault: &Fault) -> Stop
    requires { can_refuse status ≡ true }
    ensures { IsRefusalFor (record { status = status; line = fault_line fault.now }) result }
{
    refused(status, format!(in alloc; "{fault}"))
}

fn entry_field(name: Field) -> Option<EntryField>
    ensures { result ≡ entry_field name }
{
    match name {
        Field::Inputs => None,
        Field::Name => Some(EntryField::Name),
        Field::Domain => Some(EntryField::Domain),
        Field::Type => Some(EntryField::Type),
        Field::Value => Some(EntryField::Value),
        Field::Shape => Some(EntryField::Shape),
        Field::Share => Some(EntryField::Share),
        Field::Lens => None,
        Field::Miner => None,
    }
}

fn top_fault(name: Field) -> InputFault
    ensures { result ≡ top_fault name }
{
    match name {
        Field::Lens => InputFault::BadLens,
        Field::Miner => InputFault::BadMiner,
        _ => InputFault::NoInputs,
    }
}

fn field_fault(entry: Option<u64>, name: Field) -> InputFault
    ensures { result ≡ field_fault entry name }
{
    match (entry, entry_field(name)) {
        (Some(entry), Some(field)) => InputFault::BadField { entry, field },
        _ => top_fault(name),
    }
}

// That an input file is refused for this fault.
fn input_stop(alloc: Global, fault: InputFault) -> Stop
    ensures { IsRefusalFor (record { status = Input; line = fault_line (InputFile fault) }) result }
{
    refusal_of(alloc, Status::Input, &Fault::Input(fault))
}

// Why an input file or a public file is refused.
#[tactic(auto, unfolding(crate::specs::Reading::bad_input))]
fn read_stop(alloc: Global, error: value_file::ReadErr) -> Stop
    ensures refusal { error ≢ ReadErr.Memory → IsRefusalFor (bad_input error) result }
    ensures memory { error ≡ ReadErr.Memory → result ≡ Stop.Memory }
{
    match error {
        value_file::ReadErr::Memory => Stop::Memory,
        value_file::ReadErr::Syntax => input_stop(alloc, InputFault::NotJson),
        value_file::ReadErr::BadField { entry, name } => {
            input_stop(alloc, field_fault(entry, name))
        }
        value_file::ReadErr::TooLong { entry } => {
            input_stop(alloc, InputFault::TooMany { entry })
        }
    }
}

/// The inputs of the file at this path.
#[tactic(auto, unfolding(crate::specs::Reading::inputs_at, crate::specs::Reading::bad_input))]
pub fn read_inputs<F: Files>(alloc: Global, files: &mut F, path: &str) -> Result<Inputs, Stop>
    ensures files { OnlyRead (F.state files.old) (F.state files.new) }
    ensures answer { Gives (λ inputs. inputs) (F.state files.old) (F.state files.new) result
        (inputs_at (F.state files.old).contents path.now) }
    ensures form { IfOk result AreInputs }
    ensures names { IfErr result (StopNames (path.now ∷ [])) }
{
    let bytes = read_file(alloc, files, path)?;
    match value_file::read(alloc, &bytes) {
        Ok(inputs) => Ok(inputs),
        Err(error) => Err(read_stop(alloc, error)),
    }
}

/// The public part of the file at this path.
#[tactic(auto, unfolding(crate::specs::Reading::public_at, crate::specs::Reading::bad_input))]
pub fn read_public_file<F: Files>(
    alloc: Global,
    files: &mut F,
    path: &str,
) -> Result<PublicPart, Stop>
    ensures files { OnlyRead (F.state files.old) (F.state files.new) }
    ensures answer { Gives (λ part. part) (F.state files.old) (F.state files.new) result
        (public_at (F.state files.old).contents path.now) }
    ensures form { IfOk result IsWritable }
    ensures names { IfErr result (StopNames (path.now ∷ [])) }
{
    let bytes = read_file(alloc, files, path)?;
    match value_file::read_public(alloc, &bytes) {
        Ok(part) => Ok(part),
        Err(error) => Err(read_stop(alloc, error)),
    }
}

/// The share file of this miner at this path.
#[tactic(auto, unfolding(crate::specs::Reading::share_at, crate::specs::Reading::bad_input))]
pub fn read_share_file<F: Files>(
    alloc: Global,
    files: &mut F,
    miner: Number,
    path: &str,
) -> Result<ShareFile, Stop>
    ensures files { OnlyRead (F.state files.old) (F.state files.new) }
    ensures answer { Gives (λ share. share) (F.state files.old) (F.state files.new) result
        (share_at (F.state files.old).contents miner path.now) }
    ensures form { IfOk result (λ share. AreWritable share.entries) }
    ensures names { IfErr result (StopNames (path.now ∷ [])) }
{
    let bytes = read_file(alloc, files, path)?;
    match read_share(alloc, &bytes, miner.as_u8()) {
        Ok(share) => Ok(share),
        Err(error) => Err(read_stop(alloc, error)),
    }
}

// Why a file of opened values, or of what is handed over, is refused.
#[tactic(auto, unfolding(crate::specs::Reading::bad_opened))]
fn opened_stop(alloc: Global, line: u64) -> Stop
    ensures { IsRefusalFor (bad_opened line) result }
{
    refusal_of(alloc, Status::Input, &Fault::BadView { line })
}

/// The words of the file of opened values at this path.
#[tactic(auto, unfolding(crate::specs::Reading::opened_at))]
pub fn read_opened_file<F: Files>(
    alloc: Global,
    files: &mut F,
    path: &str,
) -> Result<Vec<u64>, Stop>
    ensures files { OnlyRead (F.state files.old) (F.state files.new) }
    ensures answer { Gives (λ words. words.items) (F.state files.old) (F.state files.new) result
        (opened_at (F.state files.old).contents path.now) }
    ensures names { IfErr result (StopNames (path.now ∷ [])) }
{
    let bytes = read_file(alloc, files, path)?;
    match view_reader::read_opened(alloc, &bytes) {
        Ok(words) => Ok(words),
        Err(view_reader::ReadErr::BadView { line }) => Err(opened_stop(alloc, line)),
        Err(view_reader::ReadErr::Memory) => Err(Stop::Memory),
    }
}

/// The words of the file of what is handed over at this path.
#[tactic(auto, unfolding(crate::specs::Reading::published_at))]
pub fn read_published_file<F: Files>(
    alloc: Global,
    files: &mut F,
    path: &str,
) -> Result<Vec<u64>, Stop>
    ensures files { OnlyRead (F.state files.old) (F.state files.new) }
    ensures answer { Gives (λ words. words.items) (F.state files.old) (F.state files.new) result
        (published_at (F.state files.old).contents path.now) }
    ensures names { IfErr result (StopNames (path.now ∷ [])) }
{
    let bytes = read_file(alloc, files, path)?;
    match view_reader::read_published(alloc, &bytes) {
        Ok(words) => Ok(words),
        Err(view_reader::ReadErr::BadView { line }) => Err(opened_stop(alloc, line)),
        Err(view_reader::ReadErr::Memory) => Err(Stop::Memory),
    }
}

/// Why a tape file is refused, whose first fault is at this place; `Memory` where the line can't be made.
#[tactic(auto, unfolding(crate::specs::Reading::bad_tape))]
pub fn tape_stop(alloc: Global, place: u64) -> Stop
    ensures { IsRefusalFor (bad_tape place) result }
{
    refusal_of(alloc, Status::TapeFile, &Fault::BadTape { place })
}

/// The tapes of the file at this path.
#[tactic(auto, unfolding(crate::specs::Reading::tape_file_at))]
pub fn read_tape_file<F: Files>(alloc: Global, files: &mut F, path: &str) -> Result<Tapes, Stop>
    ensures files { OnlyRead (F.state files.old) (F.state files.new) }
    ensures answer { Gives (λ tapes. tapes) (F.state files.old) (F.state files.new) result
        (tape_file_at (F.state files.old).contents path.now) }
    ensures names { IfErr result (StopNames (path.now ∷ [])) }
{
    let bytes = read_file(alloc, files, path)?;
    match tape_file::read(alloc, &bytes) {
        Ok(tapes) => Ok(tapes),
        Err(tape_file::ReadErr::BadTape { place }) => Err(tape_stop(alloc, place)),
        Err(tape_file::ReadErr::Memory) => Err(Stop::Memory),
    }
}

// Why a schedule file is refused.
#[tactic(auto, unfolding(crate::specs::Reading::bad_schedule))]
fn schedule_stop(alloc: Global, line: u64) -> Stop
    ensures { IsRefusalFor (bad_schedule line) result }
{
    refusal_of(alloc, Status::Schedule, &Fault::BadSchedule { line })
}

/// The links of the schedule file at this path.
#[tactic(auto, unfolding(crate::specs::Reading::schedule_file_at))]
pub fn read_schedule_file<F: Files>(
    alloc: Global,
    files: &mut F,
    path: &str,
) -> Result<Vec<Link>, Stop>
    ensures files { OnlyRead (F.state files.old) (F.state files.new) }
    ensures sizes { SameSizes (F.state files.old) (F.state files.new) }
    ensures answer { Gives (λ links. links.items) (F.state files.old) (F.state files.new) result
        (schedule_file_at (F.state files.old).contents path.now) }
    ensures names { IfErr result (StopNames (path.now ∷ [])) }
{
    let bytes = read_file(alloc, files, path)?;
    match schedule_file::read(alloc, &bytes) {
        Ok(links) => Ok(links),
        Err(schedule_file::ReadErr::BadEntry { line }) => Err(schedule_stop(alloc, line)),
        Err(schedule_file::ReadErr::Memory) => Err(Stop::Memory),
    }
}
