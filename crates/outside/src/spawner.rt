// Other programs.
ghost use Rattle.std.specs.Prelude.{◌≡◌, true, map, IfOk, OnOk, OnErr, string_bytes};
ghost use Rattle.outside.specs.Causes.{HasSpawnCause, IsSteadySpawn};
ghost use Rattle.outside.specs.Spawner.{SpawnerState, SameSpawner, HeldThen, Called, IsKnown, IsFresh, IsUnknown, started, awaited};

use crate::{Files, SpawnErr};
use std::alloc::Global;

/// Other programs that are started and waited for, by the numbers that they are given.
pub trait Spawner {
    ghost state: { Self → SpawnerState };

    /// Starts a child with these words, and answers its number. The store is where the child's files are.
    fn start<F: Files>(
        &mut self,
        alloc: Global,
        files: &F,
        words: &[String],
    ) -> Result<u32, SpawnErr>
        ensures ok { IfOk result (λ child. Called (state self.old) (state self.new) (started (map string_bytes words.now) child)) }
        ensures held { OnOk result (HeldThen (state self.old) (state self.new) (F.state files.now)) }
        ensures held_still { OnErr result ((state self.new).held ≡ (state self.old).held) }
        ensures fresh { IfOk result (λ child. (state self.old).told ≡ true → IsFresh (state self.old) child) }
        ensures err { OnErr result (SameSpawner (state self.old) (state self.new)) }
        ensures cause { HasSpawnCause (state self.old).faults (state self.new).faults result }
        ensures steady { (state self.old).steady ≡ true →
            IsSteadySpawn (state self.old).faults (state self.new).faults result ⊥ }
        ensures still { (state self.old).steady ≡ true → (state self.new).steady ≡ true };

    /// Waits until this child ends, and answers its status. A number that `start` did not give is a fault.
    fn wait(&mut self, child: u32) -> Result<i32, SpawnErr>
        ensures ok { IfOk result (λ status. Called (state self.old) (state self.new) (awaited child)) }
        ensures held { (state self.new).held ≡ (state self.old).held }
        ensures status { IfOk result (λ status. (state self.old).told ≡ true → status ≡ (state self.old).status child) }
        ensures known { IfOk result (λ status. (state self.old).told ≡ true → IsKnown (state self.old) child) }
        ensures err { OnErr result (SameSpawner (state self.old) (state self.new)) }
        ensures cause { HasSpawnCause (state self.old).faults (state self.new).faults result }
        ensures steady { (state self.old).steady ≡ true →
            IsSteadySpawn (state self.old).faults (state self.new).faults result (IsUnknown (state self.old) child) }
        ensures still { (state self.old).steady ≡ true → (state self.new).steady ≡ true };
}
