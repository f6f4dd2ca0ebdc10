// How many rows were tried, and how many of them differ.
ghost use Rattle.std.specs.Prelude.{◌≡◌, ◌≢◌, ◌↔◌, suc, min, true, false};

/// How many rows were tried, and how many of them differ.
#[derive(Clone, Copy)]
pub struct Tally {
    pub rows: u64,
    pub differing: u64,
}

impl Tally {
    /// One more row, which is as its file says or differs.
    pub fn count(&mut self, agrees: bool)
        ensures counted { self.new.rows ≡ min (suc self.old.rows) 18446744073709551615 }
        ensures agrees { agrees ≡ true → self.new.differing ≡ self.old.differing }
        ensures differs { agrees ≡ false → self.new.differing ≡ min (suc self.old.differing) 18446744073709551615 }
    {
        self.rows = self.rows.saturating_add(1);
        if !agrees {
            self.differing = self.differing.saturating_add(1);
        }
    }

    /// Whether there are rows, and none of them differs.
    pub fn is_good(&self) -> bool
        ensures { (result ≡ true) ↔ ((self.now.rows ≢ 0) × (self.now.differing ≡ 0)) }
    {
        self.rows != 0 && self.differing == 0
    }
}
