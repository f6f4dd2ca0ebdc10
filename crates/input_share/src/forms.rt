// What is dealt may stand in a file.
ghost use Rattle.std.specs.Prelude.{◌≤◌, ℕ, List, length};
ghost use Rattle.proto_core.specs.declared.party.Number.{Number};
ghost use Rattle.value_file.specs.Input.{AreInputs};
ghost use Rattle.value_file.specs.declared.inputs.Entry.{Entry};
ghost use Rattle.input_share.specs.Dealing.{need_of, dealt_entries};
ghost use Rattle.input_share.specs.Reading.{AreWritable};

/// What each miner is dealt of inputs that may stand in a file may stand in a share file, wherever the dealer has enough
/// words.
pub fn dealt_files_are_writable()
    ensures { (miner : Number) (inputs : List Entry) (words : List ℕ) → AreInputs inputs → need_of inputs ≤ length words →
        AreWritable (dealt_entries miner inputs words) }
{}
