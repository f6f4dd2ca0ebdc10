// What is true of many questions of one dealing.
ghost use Rattle.std.specs.Prelude.{ℕ, List, map};
ghost use Rattle.proto_core.specs.declared.party.Number.{Number};
ghost use Rattle.value_file.specs.declared.inputs.Entry.{Entry};
ghost use Rattle.view_text.specs.View.{View};
ghost use Rattle.view_model.specs.Counting.{AreDistinct};
ghost use Rattle.many_questions.specs.Questions.{Question, AllTapes, lengths_on, twin_asked};
ghost use Rattle.many_questions.specs.Laws.{AreGiven, AreFor, AreSimulated, Correspond, AreBothGiven, IsTwin, AllGive, AsMany};

/// Law: what a miner sees of all runs is what the simulators make, run by run, of the public part of the inputs, the words that the run opened, and
/// the mapped tapes, of which the dealer's is the same for all. So what is opened in all runs is all that it learns.
pub fn questions_are_simulated()
    ensures { (i : Number) (entries : List Entry) (questions : List Question) (tapes : AllTapes) →
        AreGiven entries questions → AreFor questions tapes → AreSimulated i entries questions tapes }
{}

/// Law: the dealer's tape and all tapes of the miners together correspond one to one with those that the views of all runs are made of; each keeps
/// its length, and the miner's own tapes their words.
pub fn all_tapes_correspond()
    ensures { (i : Number) (entries : List Entry) (questions : List Question) (tapes : AllTapes) →
        AreGiven entries questions → AreFor questions tapes → Correspond i entries questions tapes }
{}

/// Law: of two inputs that are alike in each run, all tapes have a twin, with one dealer's tape, with which the second inputs give a miner the same
/// views of all runs; twinned back it is the first.
pub fn question_twins_see_the_same()
    ensures { (i : Number) (first second : List Entry) (questions : List Question) (tapes : AllTapes) →
        AreBothGiven first second questions (lengths_on tapes.dealer tapes.miners) → AreFor questions tapes →
        IsTwin i first second questions tapes (twin_asked i first second questions tapes) }
{}

/// Law: of two inputs that are alike in each run, as many tapes of given lengths give the views of all runs with the one as with the other.
pub fn question_twins_are_as_many()
    ensures { (i : Number) (first second : List Entry) (questions : List Question) (lengths : List (List ℕ)) (views : List View) (all : List AllTapes) →
        AreBothGiven first second questions lengths → AllGive i first questions lengths views all → AreDistinct all →
        AsMany i second questions lengths views all (map (λ tapes. twin_asked i first second questions tapes) all) }
{}
