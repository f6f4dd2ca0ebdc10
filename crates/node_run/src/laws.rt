// What is true of a miner that runs code which does nothing.
ghost use Rattle.std.specs.Prelude.{ℕ, List};
ghost use Rattle.proto_core.specs.declared.party.Number.{Number};
ghost use Rattle.gates.specs.Clear.{Values};
ghost use Rattle.language_model.specs.Effects.{World};
ghost use Rattle.node_run.specs.Idle.{IdlesAtOnce};

/// Law: a miner that runs this code has ended before any message comes, and sends, opens and tells nothing, whatever its shares, its tape and
/// the budget are.
pub fn miners_idle_at_once()
    ensures { (w : World) (i : Number) (dealt : Values) (tape : List ℕ) (budget : ℕ) → IdlesAtOnce w i dealt tape budget }
{}
