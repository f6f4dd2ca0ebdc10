// The three files that a miner reads.
ghost use Rattle.std.specs.Prelude.{◌≡◌, IfOk, IfErr, string_bytes};
ghost use Rattle.command_frame.specs.Reads.{OnlyRead, Gives, StopNames};
ghost use Rattle.input_share.specs.Reading.{AreWritable};
ghost use Rattle.command_words.specs.Views.{miner_ask};
ghost use Rattle.tape_sources.specs.FileTapes.{file_in};
ghost use Rattle.miner_command.specs.Files.{given_at, miner_paths, own_length};
ghost use Rattle.miner_command.specs.Opened.{IsOpen};
ghost use Rattle.miner_command.specs.Views.{given_seen};

use crate::code_file::{CodeFile, read_code_file};
use crate::opened_file::TapeFile;
use crate::own_tape::open_own_tape;
use command_frame::Stop;
use command_words::MinerWords;
use input_share::ShareFile;
use outside::Files;
use program_commands::read_share_file;
use proto_core::Number;
use std::alloc::Global;

/// What a miner reads before it plays its part: the code, its shares, and the length of its tape.
#[derive(Drop)]
pub struct MinerFiles {
    pub code: CodeFile,
    pub share: ShareFile,
    pub tape: TapeFile,
}

// How many words a miner's own tape has, by the lengths of the tapes of the dealer and of miners 1, 2 and 3.
fn own_length(me: Number, lens: [u64; 4]) -> u64
    ensures { result ≡ own_length me lens }
{
    let [_, first, second, third] = lens;
    match me {
        Number::One => first,
        Number::Two => second,
        Number::Three => third,
    }
}

/// Reads and checks the code, then the share file, then opens the tape, which has to be as long as the share file says.
#[tactic(auto, unfolding(crate::specs::Files::given_at, crate::specs::Files::miner_paths), using(command_frame::proofs::Naming::names_first, command_frame::proofs::Naming::names_later))]
pub fn read_files<F: Files>(
    alloc: Global,
    files: &mut F,
    words: &MinerWords,
) -> Result<MinerFiles, Stop>
    ensures files { OnlyRead (F.state files.old) (F.state files.new) }
    ensures answer { Gives (given_seen (file_in (F.state files.old) (string_bytes words.now.tape))) (F.state files.old) (F.state files.new) result
        (given_at (miner_ask words.now) (F.state files.old).contents) }
    ensures form { IfOk result (λ read. AreWritable read.share.entries) }
    ensures words { IfOk result (λ read. read.tape.words ≡ own_length words.now.me read.share.lens) }
    ensures opened { IfOk result (λ read. IsOpen (F.state files.new) (string_bytes words.now.tape) read.tape) }
    ensures names { IfErr result (StopNames (miner_paths (miner_ask words.now))) }
{
    let code = read_code_file(alloc, files, &words.code)?;
    let share = read_share_file(alloc, files, words.me, &words.share)?;
    let count = own_length(words.me, share.lens());
    let tape = open_own_tape(alloc, files, count, &words.tape)?;
    Ok(MinerFiles { code, share, tape })
}
