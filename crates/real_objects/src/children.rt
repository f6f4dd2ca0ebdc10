// Child processes, which run this same program.
ghost use Rattle.std.specs.Prelude.{◌≡◌};
ghost use Rattle.real_objects.specs.Untold.{untold_spawner};

use crate::vectors::push;
use outside::{Files, SpawnErr, Spawner};
use std::alloc::Global;
use std::io;
use std::process::{Child, Command, OpenProcess, Processes};

// The program that this process runs, by whatever path it was found.
const THIS_PROGRAM: &str = "/proc/self/exe";

/// Child processes, by the order in which they were started. Nothing is told of them; each error is counted.
#[derive(Drop)]
pub struct RealSpawner<'a, R: Processes> {
    rt: &'a R,
    children: Vec<Child<R::Started>>,
    faults: u64,
}

// Starts the program of a command with these words.
fn start<R: Processes>(
    rt: &R,
    command: &mut Command,
    words: &[String],
) -> io::Result<Child<R::Started>> {
    for word in words {
        command.arg(word)?;
    }
    command.spawn(rt)
}

// Starts this same program with these words.
fn spawn<R: Processes>(rt: &R, alloc: Global, words: &[String]) -> io::Result<Child<R::Started>> {
    let mut command = Command::new(alloc, THIS_PROGRAM)?;
    start(rt, &mut command, words)
}

// The status of the child at this place, once it has ended.
fn status_of<P: OpenProcess>(children: &mut [Child<P>], place: usize) -> Option<i32> {
    children.get_mut(place)?.wait().ok()?.code()
}

impl<'a, R: Processes> RealSpawner<'a, R> {
    /// No child was started.
    pub fn new(rt: &'a R, alloc: Global) -> Self
        ensures { result.faults ≡ 0 }
    {
        RealSpawner {
            rt,
            children: Vec::new(alloc),
            faults: 0,
        }
    }

    // Starts a child and keeps it, by the next number.
    fn add(&mut self, alloc: Global, words: &[String]) -> io::Result<u32>
        ensures { self.new.faults ≡ self.old.faults }
    {
        let Ok(number) = u32::try_from(self.children.len()) else {
            return Err(io::Error::from(io::ErrorKind::Other));
        };
        self.children.reserve(1)?;
        push(&mut self.children, spawn(self.rt, alloc, words)?)?;
        Ok(number)
    }
}

impl<'a, R: Processes> Spawner for RealSpawner<'a, R> {
    ghost state = { λ s. untold_spawner s.faults };

    fn start<F: Files>(
        &mut self,
        alloc: Global,
        _files: &F,
        words: &[String],
    ) -> Result<u32, SpawnErr> {
        match self.add(alloc, words) {
            Ok(number) => Ok(number),
            Err(error) => {
                self.faults = self.faults.saturating_add(1);
                match error.kind() {
                    io::ErrorKind::OutOfMemory => Err(SpawnErr::Memory),
                    _ => Err(SpawnErr::Failed),
                }
            }
        }
    }

    fn wait(&mut self, child: u32) -> Result<i32, SpawnErr> {
        if let Some(code) = status_of(&mut self.children, child as usize) {
            return Ok(code);
        }
        self.faults = self.faults.saturating_add(1);
        Err(SpawnErr::Failed)
    }
}
