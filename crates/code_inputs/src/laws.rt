// What is true of the code of an accepted program, and of the inputs that it runs on.
ghost use Rattle.std.specs.Prelude.{ℕ, List};
ghost use Rattle.program_trees.specs.Programs.{ProgramTree};
ghost use Rattle.program_trees.specs.TypedPrograms.{TypedProgramTree};
ghost use Rattle.reached_instances.specs.Instances.{Instance};
ghost use Rattle.value_file.specs.declared.inputs.Entry.{Entry};
ghost use Rattle.language_model.specs.Effects.{GivenInput};
ghost use Rattle.language_model.specs.Reports.{Offered};
ghost use Rattle.code_inputs.specs.Laws.{HasWordsWhereWellTyped, SuitsWhereAccepted};
ghost use Rattle.code_inputs.specs.Laws.{AreDealtWhereSound, AreOfferedWhereSound, RunsOnInputs, EvaluationSuits};

/// Law: the literals in the raw code of a well-typed program are words. So for each program that the checker accepts, that the grammar
/// allows and that is within the limits of size, the steps that are settled of its raw code fit, and take values that have gates.
pub fn accepted_code_suits()
    ensures literals { (p : TypedProgramTree) (is : List Instance) → HasWordsWhereWellTyped p is }
    ensures suits { (p : ProgramTree) → SuitsWhereAccepted p }
{}

/// Law: of the entries of an input file, where the dealer's words suffice, the miners have shares of the private ones. What a run is
/// given of them is offered so: each is of words in range, each private one is dealt with its words in the ring of its elements, and what
/// is no array has one element.
pub fn inputs_are_dealt()
    ensures dealt { (entries : List Entry) (dealer : List ℕ) → AreDealtWhereSound entries dealer }
    ensures offered { (entries : List Entry) (dealer : List ℕ) (inputs : List GivenInput) → AreOfferedWhereSound entries dealer inputs }
{}

/// Law: so the code of an accepted program may run on the inputs of a file, in the clear; and the gates that its evaluation makes are a
/// run on the shares that are dealt which is well formed, draw the words that the report counts, hand over what it publishes, and open
/// the words that it opened.
pub fn accepted_code_runs_on_inputs()
    ensures runs { (p : ProgramTree) (entries : List Entry) (dealer : List ℕ) (o : Offered) → RunsOnInputs p entries dealer o }
    ensures evaluated { (p : ProgramTree) (entries : List Entry) (dealer : List ℕ) (o : Offered) (budget : ℕ) →
        EvaluationSuits p entries dealer o budget }
{}
