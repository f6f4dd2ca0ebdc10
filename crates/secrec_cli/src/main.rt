//! The program `secrec`: the real objects, and the top call.
#![tactic(auto)]

ghost use Rattle.std.specs.Prelude.{◌≡◌};
ghost use Rattle.std.specs.Process.{exit_status};
ghost use Rattle.command_frame.specs.Status.{code_of};
ghost use Rattle.command_frame.specs.Stops.{status_of};

use command_frame::{Status, Stop, ended_status, say};
use outside::Sink;
use real_objects::{RealFiles, RealLinks, RealSink, RealSpawner, open_streams};
use run_engine::secrec;
use std::alloc::Global;
use std::process::ExitCode;
use std::{env, io};

// Why there are no words: a word that is no text names no command.
fn stop_of(error: &io::Error) -> Stop {
    match error.kind() {
        io::ErrorKind::OutOfMemory => Stop::Memory,
        _ => Stop::Usage,
    }
}

// The words after the program's name.
fn words(rt: &HostRuntime, alloc: Global) -> Result<Vec<String>, Stop> {
    match env::args(rt) {
        Ok(all) => Ok(all.skip(1).collect(alloc)?),
        Err(error) => Err(stop_of(&error)),
    }
}

// Says why nothing is done. A fault of the error stream changes nothing else.
fn refuse<E: Sink>(err: &mut E, stop: Stop) -> Status
    ensures { result ≡ status_of stop }
{
    let ended = Err(stop);
    let _ = say(err, &ended);
    ended_status(&ended)
}

// Does what the words ask for.
fn obey<E: Sink>(rt: &HostRuntime, alloc: Global, words: &[String], err: &mut E) -> Status {
    let mut files = RealFiles::new(rt, alloc);
    let mut out = RealSink::new(rt.stdout());
    let mut links = RealLinks::new(rt, alloc);
    let mut children = RealSpawner::new(rt, alloc);
    secrec(
        alloc,
        words,
        &mut files,
        &mut out,
        err,
        &mut links,
        &mut children,
    )
}

// What the process ends with: the number of the status.
fn exit_code(status: Status) -> ExitCode
    ensures { exit_status result ≡ code_of status }
{
    ExitCode::from(status.code())
}

fn main(rt: HostRuntime) -> ExitCode {
    open_streams(&rt);
    let alloc = rt.alloc();
    let mut err = RealSink::new(rt.stderr());
    let status = match words(&rt, alloc) {
        Ok(words) => obey(&rt, alloc, &words, &mut err),
        Err(stop) => refuse(&mut err, stop),
    };
    exit_code(status)
}
