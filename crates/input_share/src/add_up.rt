// What the three files tell together.
ghost use Rattle.std.specs.Prelude.{◌≡◌, ◌≤◌, ℕ, List, All, length, map};
ghost use Rattle.proto_core.specs.declared.party.Number.TheVariants.{One, Two, Three};
ghost use Rattle.value_file.specs.declared.inputs.Entry.{Entry};
ghost use Rattle.input_share.specs.Values.{shared_words};
ghost use Rattle.input_share.specs.Dealing.{need_of, dealt_entries};
ghost use Rattle.input_share.specs.AddUp.{all_together, HasWords};

/// Wherever the dealer has enough words, the three miners' words of each private input add up to its value, numbers modulo
/// 2^64 and truth values under xor, and each public input stands in the files as it is.
pub fn shares_add_up()
    ensures { (inputs : List Entry) (words : List ℕ) → All HasWords inputs → need_of inputs ≤ length words →
        all_together (dealt_entries One inputs words) (dealt_entries Two inputs words) (dealt_entries Three inputs words)
        ≡ map (λ entry. shared_words entry.value) inputs }
{}
