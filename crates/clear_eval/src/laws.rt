// What is true of the inputs of all runs.
ghost use Rattle.std.specs.Prelude.{◌≡◌, ℕ, List};
ghost use Rattle.value_file.specs.declared.inputs.Entry.{Entry};
ghost use Rattle.value_file.specs.Public.{part_of};
ghost use Rattle.program_trees.specs.TypedPrograms.{TypedProgramTree};
ghost use Rattle.language_model.specs.Effects.{Answers};
ghost use Rattle.language_model.specs.Reports.{public_part, world_of, evaluated, blind};
ghost use Rattle.clear_eval.specs.Offers.{offered, offered_part};

/// Law: one who knows the public part of a file's inputs knows what everybody may know of a run on them, and so the blind run on that
/// part is the blind run on those inputs.
pub fn public_parts_are_public()
    ensures part { (entries : List Entry) (lengths : List ℕ) → offered_part (part_of entries) lengths ≡ public_part (offered entries lengths) }
    ensures report { (entries : List Entry) (lengths answers : List ℕ) (p : TypedProgramTree) (budget : ℕ) →
        evaluated (world_of Answers (offered_part (part_of entries) lengths)) p budget answers ≡ blind p (offered entries lengths) answers budget }
{}
