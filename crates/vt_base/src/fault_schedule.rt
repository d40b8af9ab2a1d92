// Which calls of an object in memory fail.
ghost use Rattle.std.specs.Prelude.{◌≡◌, ◌≤◌, IsTrue, IsOk, is_err};
ghost use Rattle.vt_base.specs.Faults.{HasCause, Rose};
ghost use Rattle.vt_base.specs.Memory.{called, is_steady, is_to_fail, scheduled, with_fault};

use crate::Failed;
use std::marker::Model;

/// Which calls of an object in memory are to fail, with a count of its calls and of its faults. Both counts stay at
/// their last value.
#[derive(Debug, Drop)]
pub struct FaultSchedule {
    failing: Vec<u64>,
    calls: u64,
    faults: u64,
}

impl Model for FaultSchedule {
    ghost use Rattle.vt_base.specs.Memory.{Schedule};

    ghost Value = { Schedule };

    ghost view = { λ p. record { failing = p.failing.items; calls = p.calls; faults = p.faults } };
}

impl FaultSchedule {
    /// The calls of these numbers are to fail. The first call has the number 1.
    pub fn new(failing: Vec<u64>) -> FaultSchedule
        ensures start { result ≡ scheduled failing.items }
    {
        FaultSchedule {
            failing,
            calls: 0,
            faults: 0,
        }
    }

    /// Counts one more call, and with it a fault where it is to fail.
    #[tactic(auto, using(crate::proofs::Failing::next_is_sure, crate::proofs::Failing::later_are_sure))]
    pub fn call(&mut self) -> Result<(), Failed>
        ensures counts { self.new ≡ called self.old }
        ensures cause { HasCause self.old.faults self.new.faults result }
        ensures fails { is_err result ≡ is_to_fail self.old }
        ensures succeeds_if_promised { IsTrue (is_steady self.old) → IsOk result }
        ensures stays { IsTrue (is_steady self.old) → IsTrue (is_steady self.new) }
    {
        self.calls = self.calls.saturating_add(1);
        if self.failing.contains(&self.calls) {
            return Err(self.fault());
        }
        Ok(())
    }

    /// Counts a fault.
    pub fn fault(&mut self) -> Failed
        ensures counts { self.new ≡ with_fault self.old }
        ensures later { self.old.faults ≤ self.new.faults }
        ensures rose { Rose self.old.faults self.new.faults }
    {
        self.faults = self.faults.saturating_add(1);
        Failed
    }
}
