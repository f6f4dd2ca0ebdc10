// What is true of the gates that code makes.
ghost use Rattle.std.specs.Prelude.{ℕ, List};
ghost use Rattle.language_model.specs.Effects.{World};
ghost use Rattle.bytecode.specs.Raw.{RawCode};
ghost use Rattle.verified_code.specs.Steps.{Function};
ghost use Rattle.gate_laws.specs.Dealt.{Dealt};
ghost use Rattle.gate_laws.specs.Laws.{StepsKeepStanding, RunsMakeSuitedGates, VerifiedSuits};

/// Law: a step of code from a stage whose gates suit leads to one, in the clear and blind, also where the run ends. The gates that it
/// adds suit the values before them, in sizes and in how they are shared; the random words that it draws are those that its gates take;
/// whatever values fit the gates, the value at the number of a register's private value has the words of its elements, truth values packed,
/// the values that are handed over to the client are told as such, and in the clear those that the gates open are the words of what is told.
pub fn steps_make_suited_gates()
    ensures { (w : World) (d : Dealt) (c : List Function) → StepsKeepStanding w d c }
{}

/// Law: so the gates of each whole run of code suit, are counted by the report's random words, hand over what the report's events hand over,
/// and in the clear open the words of what its events open.
pub fn runs_make_suited_gates()
    ensures { (w : World) (d : Dealt) (c : List Function) (budget : ℕ) (answers : List ℕ) → RunsMakeSuitedGates w d c budget answers }
{}

/// Law: the steps of verified code fit, and take values that have gates, where its literals are words.
pub fn verified_code_may_run()
    ensures { (code : RawCode) → VerifiedSuits code }
{}
