// Which calls of an object in memory are to fail.
ghost use Rattle.std.specs.Prelude.{◌≡◌, ◌↔◌, ◌≤◌, IsTrue};
ghost use Rattle.wx_types.specs.Outside.{next_count};
ghost use Rattle.wx_types.specs.MemoryObjects.{Plan, NextFails, after_call, after_fault};

use std::marker::Model;

/// The numbers, from 1, of the calls that are to fail, and the counts of calls and of faults. Both
/// counts stand still at the greatest u64.
#[derive(Debug, Drop)]
pub struct CallPlan {
    fails: Vec<u64>,
    calls: u64,
    faults: u64,
}

impl Model for CallPlan {
    ghost use Rattle.wx_types.specs.MemoryObjects.{Plan};

    ghost Value = { Plan };

    ghost view = { λ a. record { fails = a.fails.items; calls = a.calls; faults = a.faults } };
}

impl CallPlan {
    /// The plan of an object that had no call.
    pub fn new(fails: Vec<u64>) -> CallPlan
        ensures { result ≡ record { fails = fails.items; calls = 0; faults = 0 } }
    {
        CallPlan {
            fails,
            calls: 0,
            faults: 0,
        }
    }

    /// Whether the next call is one that is to fail.
    pub fn next_fails(&self) -> bool
        ensures { IsTrue result ↔ NextFails self.now }
    {
        self.fails.contains(&self.calls.saturating_add(1))
    }

    /// Counts a call that didn't fail.
    pub fn count_call(&mut self)
        ensures { self.new ≡ after_call self.old }
    {
        self.calls = self.calls.saturating_add(1);
    }

    /// Counts a call that failed.
    pub fn count_fault(&mut self)
        ensures counted { self.new ≡ after_fault self.old }
        ensures never_falls { self.old.faults ≤ self.new.faults }
    {
        self.calls = self.calls.saturating_add(1);
        self.faults = self.faults.saturating_add(1);
    }
}
