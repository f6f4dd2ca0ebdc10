ghost use Rattle.std.specs.Prelude.{◌≡◌, ◌≤◌, ℕ, List, [], length};
ghost use Rattle.proto_core.specs.declared.party.Number.{Number};
ghost use Rattle.protocol_model.specs.Gates.{sizes_of};
ghost use Rattle.gates.specs.declared.gate.Gate.{Gate};
ghost use Rattle.shared_gates.specs.Model.{run_gates};
ghost use Rattle.value_file.specs.declared.public.PublicEntry.{PublicEntry};
ghost use Rattle.view_model.specs.Dealing.{hidden_sizes};
ghost use Rattle.view_model.specs.Seen.{gates_made};
ghost use Rattle.view_simulator.specs.Need.{hidden_need, made_shares};

/// Law: where the dealer has words enough, each share that is made has as many words as its input has elements. So the gates that
/// the simulator runs are those of a run in which each miner has these shares.
pub fn made_shares_are_sized()
    ensures sizes { (miner : Number) (part : List PublicEntry) (words : List ℕ) → hidden_need part ≤ length words →
        sizes_of (made_shares miner part words) ≡ hidden_sizes part }
    ensures gates { (miner : Number) (part : List PublicEntry) (words : List ℕ) (gates : List Gate) → hidden_need part ≤ length words →
        run_gates (λ k. made_shares miner part words) (sizes_of (made_shares miner part words)) [] gates ≡ gates_made miner part words gates }
{}
