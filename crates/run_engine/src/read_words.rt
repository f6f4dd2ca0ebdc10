// What is true of the inputs and the tapes that files hold.
ghost use Rattle.std.specs.Prelude.{◌≡◌, ℕ, List, Ok};
ghost use Rattle.outside.specs.Files.{Contents};
ghost use Rattle.command_words.specs.Ask.{Source};
ghost use Rattle.tape_file.specs.Tapes.{FourTapes};
ghost use Rattle.value_file.specs.declared.inputs.Entry.{Entry};
ghost use Rattle.miner_commands.specs.Premises.{HaveWords};
ghost use Rattle.program_commands.specs.Reading.{inputs_at, tapes_at};

/// Law: inputs that a file holds, and tapes that a file holds or that are drawn from a seed, are of words below 2^64, and the inputs are
/// such as may stand in a file.
pub fn read_runs_are_of_words()
    ensures { (files : Contents) (path : List ℕ) (source : Source) (entries : List Entry) (tapes : FourTapes) →
        inputs_at files path ≡ Ok entries → tapes_at files source ≡ Ok tapes → HaveWords entries tapes }
{}
