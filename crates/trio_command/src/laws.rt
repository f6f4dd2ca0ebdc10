// What is said of starting miners by the calls alone.
ghost use Rattle.std.specs.Prelude.{◌↔◌, ℕ, List};
ghost use Rattle.outside.specs.Spawner.{SpawnerState};
ghost use Rattle.proto_core.specs.declared.party.Number.{Number};
ghost use Rattle.trio_command.specs.Launching.{MayLaunch, MayLaunchBy};

/// Law: that miners may have been started, one after another, is as much as that no child was started or some launch of the three came to this,
/// whatever was answered to it: the calls tell all of it.
pub fn calls_tell_the_launch()
    ensures { (words : Number → List (List ℕ)) (old new : SpawnerState) → MayLaunch words old new ↔ MayLaunchBy words old new }
{}
