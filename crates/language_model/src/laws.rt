// What every run keeps to, whatever the program. A run's world has the tapes' lengths, the inputs, and where opened words come from:
// so the laws hold of runs in the clear and of blind ones.
ghost use Rattle.std.specs.Prelude.{ℕ, ◌≤◌, ◌<◌, ◌≡◌, ◌≢◌, List, true, false};
ghost use Rattle.sc_text.specs.declared.end.Ending.TheVariants.{Budget};
ghost use Rattle.reached_instances.specs.TypedPrograms.{TypedProgramTree};
ghost use Rattle.language_model.specs.Effects.{World, Ended};
ghost use Rattle.language_model.specs.Reports.{evaluated};
ghost use Rattle.language_model.specs.Beginnings.{IsBeginning};
ghost use Rattle.language_model.specs.Tapes.{HasWords, lacks_words};

/// Law: no run needs more words of a tape than the tape has.
pub fn runs_keep_to_their_tapes()
    ensures { (w : World) (p : TypedProgramTree) (budget : ℕ) (answers : List ℕ) → HasWords w (evaluated w p budget answers) }
{}

/// Law: where a run stops for another cause than its budget, each budget that is at least its cost gives the same report,
/// and each smaller one stops the run. What a run does with less budget is the beginning of what it does with more.
pub fn budgets_decide_alone()
    ensures same { (w : World) (p : TypedProgramTree) (budget other : ℕ) (answers : List ℕ) →
        (evaluated w p budget answers).stop ≢ Ended Budget → (evaluated w p budget answers).cost ≤ other →
        evaluated w p other answers ≡ evaluated w p budget answers }
    ensures stops { (w : World) (p : TypedProgramTree) (budget other : ℕ) (answers : List ℕ) →
        (evaluated w p budget answers).stop ≢ Ended Budget → other < (evaluated w p budget answers).cost →
        (evaluated w p other answers).stop ≡ Ended Budget }
    ensures begins { (w : World) (p : TypedProgramTree) (less more : ℕ) (answers : List ℕ) → less ≤ more →
        IsBeginning (evaluated w p less answers) (evaluated w p more answers) }
{}

/// Law: where a run doesn't stop for want of words, all tapes that have the words which it needed give the same report, and
/// all others stop the run for want of words.
pub fn tapes_decide_alone()
    ensures same { (w other : World) (p : TypedProgramTree) (budget : ℕ) (answers : List ℕ) →
        w.source ≡ other.source → w.inputs ≡ other.inputs → lacks_words (evaluated w p budget answers).stop ≡ false →
        HasWords other (evaluated w p budget answers) → evaluated other p budget answers ≡ evaluated w p budget answers }
    ensures stops { (w other : World) (p : TypedProgramTree) (budget : ℕ) (answers : List ℕ) →
        w.source ≡ other.source → w.inputs ≡ other.inputs → lacks_words (evaluated w p budget answers).stop ≡ false →
        ¬ (HasWords other (evaluated w p budget answers)) → lacks_words (evaluated other p budget answers).stop ≡ true }
{}
