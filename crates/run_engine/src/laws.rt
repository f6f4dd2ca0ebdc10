// What follows of what a call keeps, and what is true of the files whatever it does.
ghost use Rattle.std.specs.Prelude.{ℕ, List};
ghost use Rattle.outside.specs.Files.{Contents};
ghost use Rattle.command_frame.specs.declared.status.Status.{Status};
ghost use Rattle.command_frame.specs.Moments.{Moment};
ghost use Rattle.run_engine.specs.Call.{Call};
ghost use Rattle.run_engine.specs.Commands.{Commands};
ghost use Rattle.run_engine.specs.Deeds.{Deeds};
ghost use Rattle.run_engine.specs.Laws.{Laws};

/// Law: of what every call keeps, and of its deeds, as `secrec` promises them, follows what each command keeps: its effect where the files
/// hold what they must, and that it is refused exactly for the first that is not as it must be.
pub fn commands_are_kept()
    ensures { (words : List (List ℕ)) (before after : Moment) (given : Status) →
        Call words before after given → Deeds words before after given → Commands words before after given }
{}

/// Law: what is true of the files that a call is handed, whatever it does: what three calls of `miner` come to, what the mapped tapes, the
/// twins and the views of a run are to one another, and that what one command writes is what the next reads.
pub fn files_keep_laws()
    ensures { (words : List (List ℕ)) (files : Contents) → Laws words files }
{}
