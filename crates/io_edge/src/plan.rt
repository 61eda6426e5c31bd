//! Which calls of an object in memory are made to fail.

ghost use Rattle.std.specs.Prelude.{◌≡◌, ◌≤◌, ◌↔◌, Contains, IsTrue, false};
ghost use Rattle.io_edge.specs.Faults.{next_count};

/// The numbers of the calls that fail, counted from 1, and how many calls and faults there were.
#[derive(Drop)]
pub(crate) struct FaultPlan {
    pub(crate) fails: Vec<u32>,
    pub(crate) calls: u64,
    pub(crate) faults: u64,
}

impl FaultPlan {
    pub(crate) fn new(fails: Vec<u32>) -> FaultPlan
        ensures { result ≡ record { fails = fails; calls = 0; faults = 0 } }
    {
        FaultPlan {
            fails,
            calls: 0,
            faults: 0,
        }
    }

    /// Counts a call, and says whether it is to fail.
    pub(crate) fn next_fails(&mut self) -> bool
        ensures same { self.new.fails ≡ self.old.fails }
        ensures later { self.old.faults ≤ self.new.faults }
        ensures count { self.new.calls ≡ next_count self.old.calls }
        ensures fails { IsTrue result ↔ Contains self.old.fails.items self.new.calls }
        ensures rose { IsTrue result → self.new.faults ≡ next_count self.old.faults }
        ensures stands { result ≡ false → self.new.faults ≡ self.old.faults }
    {
        self.calls = self.calls.saturating_add(1);
        let now = self.calls;
        let is_failing = self.fails.iter().any(|call| u64::from(*call) == now);
        if is_failing {
            self.faults = self.faults.saturating_add(1);
        }
        is_failing
    }

    /// Counts a fault.
    pub(crate) fn count_fault(&mut self)
        ensures { self.new ≡ record self.old { faults = next_count self.old.faults } }
    {
        self.faults = self.faults.saturating_add(1);
    }
}
