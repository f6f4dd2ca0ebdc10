// The code that a miner runs.
ghost use Rattle.std.specs.Prelude.{◌∷◌, [], IfErr};
ghost use Rattle.command_frame.specs.Reads.{OnlyRead, Gives, StopNames};
ghost use Rattle.program_commands.specs.Codes.{Judges};
ghost use Rattle.miner_command.specs.Files.{code_at, code_of};
ghost use Rattle.miner_command.specs.Views.{code_seen};

use bytecode::{DecodeErr, decode};
use command_frame::{Stop, read_file};
use outside::Files;
use program_commands::{byte_stop, step_stop};
use std::alloc::Global;
use verified_code::{Verified, verify};
use wire::code_digest;

/// Verified code, and the SHA-256 digest of the file in which it stands.
#[derive(Drop)]
pub struct CodeFile {
    pub digest: [u8; 32],
    pub code: Verified,
}

// The code that bytes are, if it may run.
fn judge_code(alloc: Global, bytes: &[u8]) -> Result<Verified, Stop>
    ensures { Judges (λ code. code) result (code_of bytes.now) }
{
    match decode(alloc, bytes) {
        Ok(code) => match verify(code) {
            Ok(verified) => Ok(verified),
            Err((_, fault)) => Err(step_stop(alloc, fault)),
        },
        Err(DecodeErr::Refused(fault)) => Err(byte_stop(alloc, fault)),
        Err(DecodeErr::Memory) => Err(Stop::Memory),
    }
}

/// The code in the file at this path, verified, and the digest of the file. Bytes that are no code are refused with their first fault, and code
/// that must not run with its first faulty instruction.
#[tactic(auto, unfolding(crate::specs::Files::code_at))]
pub fn read_code_file<F: Files>(alloc: Global, files: &mut F, path: &str) -> Result<CodeFile, Stop>
    ensures files { OnlyRead (F.state files.old) (F.state files.new) }
    ensures answer { Gives code_seen (F.state files.old) (F.state files.new) result
        (code_at (F.state files.old).contents path.now) }
    ensures names { IfErr result (StopNames (path.now ∷ [])) }
{
    let bytes = read_file(alloc, files, path)?;
    let digest = code_digest(&bytes);
    match judge_code(alloc, &bytes) {
        Ok(code) => Ok(CodeFile { digest, code }),
        Err(stop) => Err(stop),
    }
}
