ghost use Rattle.std.specs.Prelude.{◌≡◌, ◌+◌, ◌≤◌, ◌↔◌, IsTrue, Contains, if◌then◌else◌};
ghost use Rattle.tk_model.specs.Counts.{capped};

use crate::FaultList;
use std::marker::Model;

/// The calls of something in memory that are to fail, and how many were made and failed.
#[derive(Debug, Drop)]
pub struct FaultSchedule {
    failing: FaultList,
    calls: u64,
    faults: u64,
}

impl Model for FaultSchedule {
    ghost use Rattle.tk_model.specs.Schedule.{Schedule};

    ghost Value = { Schedule };

    ghost view = { λ s. record { failing = s.failing; calls = s.calls; faults = s.faults } };
}

impl FaultSchedule {
    pub fn new(failing: FaultList) -> FaultSchedule
        ensures { result ≡ record { failing = failing; calls = 0; faults = 0 } }
    {
        FaultSchedule {
            failing,
            calls: 0,
            faults: 0,
        }
    }

    pub fn faults(&self) -> u64
        ensures { result ≡ self.now.faults }
    {
        self.faults
    }

    /// The next call is to fail.
    pub fn is_due(&self) -> bool
        ensures { IsTrue result ↔ Contains self.now.failing self.now.calls }
    {
        self.failing.as_slice().contains(&self.calls)
    }

    /// Counts a call, which may fail for another reason too.
    pub fn count(&mut self, failed: bool)
        ensures failing { self.new.failing ≡ self.old.failing }
        ensures calls { self.new.calls ≡ capped (self.old.calls + 1) }
        ensures faults { self.new.faults ≡ (if failed then capped (self.old.faults + 1)
            else self.old.faults) }
        ensures later { self.old.faults ≤ self.new.faults }
    {
        self.calls = self.calls.saturating_add(1);
        if failed {
            self.faults = self.faults.saturating_add(1);
        }
    }
}
