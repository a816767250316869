// Calls that are to fail.

ghost use Rattle.std.specs.Prelude.{◌≡◌, ◌≤◌, IfOk};
ghost use Rattle.lg_io.specs.Calls.{fails_next, counted};

use lg_base::OutOfMemory;
use std::alloc::Global;
use std::marker::Model;

/// Counts calls and faults, and shows the calls that are to fail by their numbers, from 1.
#[derive(Drop)]
pub struct FailingCalls {
    fail_at: Vec<u64>,
    made: u64,
    faults: u64,
}

impl Model for FailingCalls {
    ghost use Rattle.lg_io.specs.Calls.{Calls};

    ghost Value = { Calls };

    ghost view = { λ calls. record { fail_at = calls.fail_at.items; made = calls.made; faults = calls.faults } };
}

impl FailingCalls {
    /// No call yet.
    pub fn new(alloc: Global, fail_at: &[u64]) -> Result<FailingCalls, OutOfMemory>
        ensures { IfOk result (λ calls. calls ≡ record { fail_at = fail_at.now; made = 0; faults = 0 }) }
    {
        Ok(FailingCalls {
            fail_at: Vec::from_slice(alloc, fail_at)?,
            made: 0,
            faults: 0,
        })
    }

    /// Returns whether the next call is to fail.
    pub fn fails_next(&self) -> bool
        ensures { result ≡ fails_next self.now }
    {
        let number = self.made.saturating_add(1);
        self.fail_at.contains(&number)
    }

    /// Counts a call, which failed or did not.
    pub fn count(&mut self, failed: bool)
        ensures after { self.new ≡ counted self.old failed }
        ensures later { self.old.faults ≤ self.new.faults }
    {
        self.made = self.made.saturating_add(1);
        if failed {
            self.faults = self.faults.saturating_add(1);
        }
    }

    /// Returns how many calls failed.
    pub fn faults(&self) -> u64
        ensures { result ≡ self.now.faults }
    {
        self.faults
    }
}
