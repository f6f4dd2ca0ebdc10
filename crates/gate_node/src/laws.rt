// What is true of one miner's gates.
ghost use Rattle.std.specs.Prelude.{ℕ, List};
ghost use Rattle.proto_core.specs.declared.party.Number.{Number};
ghost use Rattle.protocol_model.specs.Gates as model;
ghost use Rattle.gates.specs.declared.gate.Gate.{Gate};
ghost use Rattle.gates.specs.Clear.{Values};
ghost use Rattle.gate_node.specs.Laws.{AreItsPartOfTheRun, RunOneAfterAnother, SuitsWhereTested};

/// Law: the test of a miner tells of each gate whether it suits what was dealt and the values before it.
pub fn the_test_is_right()
    ensures { SuitsWhereTested }
{}

/// Law: where its gates suit its values and its tape has the words that they draw, what a miner does by its own shares alone is its part
/// in the three miners' run of these gates, whatever the other two were dealt. It ends with its shares of all values, and with what is left
/// of its tape.
pub fn gates_are_its_part_of_the_run()
    ensures { (i : Number) (dealt : Values) (all_dealt : Number → Values) (gates : List Gate) (values : Values) (tape : List ℕ) (run : List model.Gate) →
        AreItsPartOfTheRun i dealt all_dealt gates values tape run }
{}

/// Law: gates that come later are run after those before them, where these are through.
pub fn later_gates_are_run_behind()
    ensures { (i : Number) (dealt : Values) (before behind : List Gate) (values : Values) (tape : List ℕ) →
        RunOneAfterAnother i dealt before behind values tape }
{}
