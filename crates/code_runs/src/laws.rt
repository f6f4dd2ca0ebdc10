// What three miners that run code come to.
ghost use Rattle.std.specs.Prelude.{ℕ, List};
ghost use Rattle.protocol_model.specs.Runs.{Tapes};
ghost use Rattle.language_model.specs.Reports.{Offered};
ghost use Rattle.program_trees.specs.TypedPrograms.{TypedProgramTree};
ghost use Rattle.reached_instances.specs.Instances.{Instance};
ghost use Rattle.verified_code.specs.Steps.{Function};
ghost use Rattle.gate_laws.specs.Dealt.{Dealt};
ghost use Rattle.code_runs.specs.Laws.{MinersRunTheCode, MinersRunTheProgram};

/// Law: three miners run code that may run in the clear, each with its shares of the inputs and its tape, and told what is opened by its
/// own last value. They send the messages of the joint run of the report's gates, end with their shares of all its values, and stop where
/// the report says: with its end, cost, drawn words, gates and opened words. They open the words of the report's openings, truth values
/// packed, and tell its events in order: public values all three alike, private ones as shares of the words of what is published. This
/// is so under every order of delivery: what a delivery comes to is counted by the scripts of the gates, and the default one and all
/// shuffled ones are accepted.
pub fn miners_run_the_code()
    ensures { (o : Offered) (d : Dealt) (c : List Function) (budget : ℕ) (tapes : Tapes) → MinersRunTheCode o d c budget tapes }
{}

/// Law: so three miners that run the code of a program do what the program's evaluation in the clear reports.
pub fn miners_run_the_program()
    ensures { (o : Offered) (d : Dealt) (p : TypedProgramTree) (is : List Instance) (budget : ℕ) (tapes : Tapes) →
        MinersRunTheProgram o d p is budget tapes }
{}
