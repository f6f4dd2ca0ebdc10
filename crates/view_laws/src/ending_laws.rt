// How an evaluation ends, and under which names it tells.
ghost use Rattle.std.specs.Prelude.{ℕ, List};
ghost use Rattle.program_trees.specs.Programs.{ProgramTree};
ghost use Rattle.language_model.specs.Effects.{World};
ghost use Rattle.language_model.specs.Reports.{Offered};
ghost use Rattle.program_trees.specs.TypedPrograms.{TypedProgramTree};
ghost use Rattle.view_laws.specs.Ends.{EndsCanBeWritten};
ghost use Rattle.view_laws.specs.Named.{EventsAreNamed};

/// Law: where an accepted program within the limits of size is evaluated with a budget and tapes of 64 bits, in the clear or by one who
/// is told what is opened, it ends so that this can be written: a trap is at a line of 32 bits, and a tape that ends lacks fewer than
/// 2^128 words of fewer than 2^64.
pub fn ends_can_be_written()
    ensures { (source : ProgramTree) (w : World) (budget : ℕ) (answers : List ℕ) → EndsCanBeWritten source w budget answers }
{}

/// Law: what the evaluation of an accepted program publishes, to all or to the client alone, it publishes under a name: 1 to 64 ASCII letters, digits and
/// `_`.
pub fn events_are_named()
    ensures { (p : TypedProgramTree) (o : Offered) (budget : ℕ) → EventsAreNamed p o budget }
{}
