//! From the words to the command that they ask for.
ghost use Rattle.clap.specs.Words.{subcommand_rows_of};
ghost use Rattle.command_words.specs.Ask.{matched, words_of};
ghost use Rattle.command_words.specs.Views.{Reads, WhyOf, ask_of, texts};

use crate::builders::secrec_command;
use crate::command::{Command, WordsErr};
use crate::values::named;
use clap::ArgMatches;
use clap::error::ErrorKind;
use std::alloc::Global;

// Why `clap` has no matches.
fn why(kind: ErrorKind) -> WordsErr
    ensures { WhyOf kind result }
{
    if matches!(kind, ErrorKind::OutOfMemory) {
        WordsErr::Memory
    } else {
        WordsErr::Usage
    }
}

// What `clap` matches in the words.
fn matches_of<'a>(alloc: Global, words: &'a [String]) -> Result<ArgMatches<'a>, WordsErr>
    ensures { Reads subcommand_rows_of (matched (texts words.entry.now)) result }
{
    let command = secrec_command(alloc)?;
    match command.try_get_matches_from(words) {
        Ok(matches) => Ok(matches),
        Err(error) => Err(why(error.kind())),
    }
}

/// The command that the words after the program's name ask for.
///
/// `Usage` comes exactly where they ask for none: `clap` has no matches for them, no command is named, a number isn't
/// decimal digits with a value below 2^64 (16,777,216 at most for `--words`, 1 to 3 for a miner, 1 to 65,533 for `--port`), a seed isn't 64
/// lower-case hexadecimal digits, `run` has both or none of `--tape` and `--seed`, `--words` comes without `--seed`, or
/// both `--schedule` and `--shuffle` are given. A request for help is `Usage`. `Memory` comes where memory ran out,
/// whatever the words are.
#[tactic(auto, unfolding(crate::specs::Ask::words_of))]
pub fn read(alloc: Global, words: &[String]) -> Result<Command, WordsErr>
    ensures { Reads ask_of (words_of (texts words.now)) result }
{
    let matches = matches_of(alloc, words)?;
    match matches.subcommand() {
        Some((name, inner)) => named(alloc, name, inner),
        None => Err(WordsErr::Usage),
    }
}
