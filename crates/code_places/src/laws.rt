// What is true of the steps of all code.
ghost use Rattle.std.specs.Prelude.{ℕ, List};
ghost use Rattle.language_model.specs.Effects.{World};
ghost use Rattle.language_model.specs.Reports.{Offered};
ghost use Rattle.verified_code.specs.Steps.{Function};
ghost use Rattle.gate_laws.specs.Dealt.{Dealt};
ghost use Rattle.code_places.specs.Places.{run_dealt};
ghost use Rattle.code_places.specs.Laws.{CodeHasTwins, BeginsAlike, OnlyDeclassifyOpens, WantsBeforeItTells, RunsInParts};

/// Law: beside each step of code in the clear there is a step of one who knows the public part and is told the words that are opened.
/// It goes on to a place that is alike, or has to be told, has made the step's gates, and told the words that the step opens goes on;
/// or both are over, for the same reason. Both begin alike. This holds of all code and from all places that are alike.
pub fn code_has_twins()
    ensures begins { (c : List Function) (budget : ℕ) → BeginsAlike c budget }
    ensures twins { (o : Offered) (c : List Function) → CodeHasTwins o c }
{}

/// Law: in each world only a declassification opens words. A step that wants words has told no event, opened no word and taken no
/// answer, and its gates come after those that were there, so that it can be done again with these words.
pub fn steps_can_be_done_again()
    ensures opens { (w : World) (c : List Function) → OnlyDeclassifyOpens w c }
    ensures again { (w : World) (c : List Function) → WantsBeforeItTells w c }
{}

/// Law: gates on what is dealt are run part by part.
pub fn dealt_gates_run_in_parts()
    ensures { (d : Dealt) → RunsInParts (run_dealt d) }
{}
