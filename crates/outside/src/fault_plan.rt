// Which calls of an object in memory are to fail.
ghost use Rattle.std.specs.Prelude.{◌≡◌, ◌≤◌, ◌↔◌, IsTrue, Contains, true, false};

/// Which calls of an object in memory are to fail, how many there were, and how many failed.
#[derive(Drop)]
pub(crate) struct FaultPlan {
    fails: Vec<u64>,
    calls: u64,
    faults: u64,
}

impl FaultPlan {
    ghost use Rattle.outside.specs.Plan.{one_more, is_steady, fresh_plan};

    /// The calls with these numbers are to fail, counted from 0.
    pub(crate) fn new(fails: Vec<u64>) -> Self
        ensures { result ≡ fresh_plan fails }
    {
        FaultPlan {
            fails,
            calls: 0,
            faults: 0,
        }
    }

    /// How many calls there were.
    pub(crate) fn calls(&self) -> u64
        ensures { result ≡ self.now.calls }
    {
        self.calls
    }

    /// Counts one more call, and a fault where it is one that is to fail. Says whether it is.
    pub(crate) fn next_fails(&mut self) -> bool
        ensures listed { IsTrue result ↔ Contains self.old.fails.items self.old.calls }
        ensures call { self.new.calls ≡ one_more self.old.calls }
        ensures fault { result ≡ true → self.new.faults ≡ one_more self.old.faults }
        ensures none { result ≡ false → self.new.faults ≡ self.old.faults }
        ensures later { self.old.faults ≤ self.new.faults }
        ensures fails { self.new.fails ≡ self.old.fails }
        ensures steady { is_steady self.old ≡ true → result ≡ false }
    {
        let failing = self.fails.contains(&self.calls);
        self.calls = self.calls.saturating_add(1);
        if failing {
            self.raise();
        }
        failing
    }

    /// Counts a fault.
    pub(crate) fn raise(&mut self)
        ensures fault { self.new ≡ record self.old { faults = one_more self.old.faults } }
        ensures later { self.old.faults ≤ self.new.faults }
    {
        self.faults = self.faults.saturating_add(1);
    }
}
