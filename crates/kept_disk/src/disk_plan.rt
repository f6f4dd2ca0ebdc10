// Which calls of a disk in memory are to fail.
ghost use Rattle.std.specs.Prelude.{◌≡◌, ◌≤◌, ◌↔◌, IsTrue, true, false};
ghost use Rattle.outside.specs.Plan.{one_more};

/// The calls that are to fail: those with the listed numbers, and each from the number `dead_from` on; how many calls there were, and how many failed.
#[derive(Drop)]
pub(crate) struct DiskPlan {
    fails: Vec<u64>,
    dead_from: Option<u64>,
    calls: u64,
    faults: u64,
}

impl DiskPlan {
    ghost use Rattle.kept_disk.specs.Plan.{NextFails, fresh_plan, is_steady};

    /// The calls with these numbers are to fail, counted from 0, and each from `dead_from` on.
    pub(crate) fn new(fails: Vec<u64>, dead_from: Option<u64>) -> Self
        ensures { result ≡ fresh_plan fails dead_from }
    {
        DiskPlan {
            fails,
            dead_from,
            calls: 0,
            faults: 0,
        }
    }

    /// How many calls there were.
    pub(crate) fn calls(&self) -> u64
        ensures { result ≡ self.now.calls }
    {
        self.calls
    }

    /// Counts one more call, and a fault where it is to fail. Says whether it is.
    pub(crate) fn next_fails(&mut self) -> bool
        ensures which { IsTrue result ↔ NextFails self.old }
        ensures call { self.new.calls ≡ one_more self.old.calls }
        ensures fault { result ≡ true → self.new.faults ≡ one_more self.old.faults }
        ensures none { result ≡ false → self.new.faults ≡ self.old.faults }
        ensures later { self.old.faults ≤ self.new.faults }
        ensures fails { self.new.fails ≡ self.old.fails }
        ensures dead { self.new.dead_from ≡ self.old.dead_from }
        ensures steady { is_steady self.old ≡ true → result ≡ false }
    {
        let is_listed = self.fails.contains(&self.calls);
        let is_dead = match self.dead_from {
            Some(first) => first <= self.calls,
            None => false,
        };
        let failing = is_listed || is_dead;
        self.calls = self.calls.saturating_add(1);
        if failing {
            self.faults = self.faults.saturating_add(1);
        }
        failing
    }
}
