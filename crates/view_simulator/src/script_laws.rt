ghost use Rattle.std.specs.Prelude.{◌<◌, ◌^◌, ℕ, List};
ghost use Rattle.proto_core.specs.declared.party.Number.{Number};
ghost use Rattle.proto_core.specs.declared.party.Number.TheVariants.{One};
ghost use Rattle.protocol_model.specs.Gates.{needed};
ghost use Rattle.gates.specs.declared.gate.Gate.{Gate as GateValue};
ghost use Rattle.gates.specs.Clear.{Values};
ghost use Rattle.shared_gates.specs.Model.{run_gates};
ghost use Rattle.view_simulator.specs.Sizes.{SizesFit};

/// Law: where the first miner draws fewer than 2^64 words for gates, each that sends messages takes fewer than 2^64 elements. So it is
/// where the miner's tape lies in memory and reaches to the end of the gates.
pub fn few_words_fit()
    ensures { (shares : Number → Values) (dealt_sizes sizes : List ℕ) (gates : List GateValue) →
        needed (run_gates shares dealt_sizes sizes gates) One < 2 ^ 64 → SizesFit dealt_sizes sizes gates }
{}
