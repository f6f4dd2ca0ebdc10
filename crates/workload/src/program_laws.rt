// What the program of the workloads is.
ghost use Rattle.workload.specs.Load.{load_program};
ghost use Rattle.workload.specs.LoadTree.{load_typed};
ghost use Rattle.workload.specs.Runnable.{IsRunnable};

/// Law: the text that every workload has is that of an accepted program within the limits, which is run as this typed tree.
pub fn load_program_is_runnable()
    ensures { IsRunnable load_program load_typed }
{}
