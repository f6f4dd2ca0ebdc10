// Owners who deal apart deal as one dealer does.
ghost use Rattle.std.specs.Prelude.{◌≡◌, ◌<◌, ◌≤◌, ◌^◌, ◌∷◌, List, All, length, Ok};
ghost use Rattle.proto_core.specs.declared.party.Number.{Number};
ghost use Rattle.value_file.specs.Input.{AreInputs};
ghost use Rattle.input_share.specs.Dealing.{need_of};
ghost use Rattle.gather_command.specs.Gathering.{gathered};
ghost use Rattle.gather_command.specs.Owners.{all_inputs, dealt_by, dealt_by_all, dealt_by_one, one_tape, CanDeal, Lengths, Owner};

/// Law: what a miner gathers of owners that deal apart, each from a dealer's tape of its own, is what one dealer deals of all their inputs,
/// end to end, from one tape: the words that the owners use, in order, and then those that they leave. Wherever each has words enough, so
/// has that dealer; its tape is as long as theirs together. The inputs of all must be such as may stand in one file (so that no name stands
/// twice), and the dealers' lengths add up to less than 2^64.
pub fn dealing_apart_is_one_dealing()
    ensures dealt { (miner : Number) (miners : Lengths) (owner : Owner) (owners : List Owner) →
        All CanDeal (owner ∷ owners) → AreInputs (all_inputs (owner ∷ owners)) → length (one_tape (owner ∷ owners)) < 2 ^ 64 →
        gathered (dealt_by miner miners owner) (dealt_by_all miner miners owners) ≡ Ok (dealt_by_one miner miners (owner ∷ owners)) }
    ensures enough { (owners : List Owner) → All CanDeal owners → need_of (all_inputs owners) ≤ length (one_tape owners) }
{}
