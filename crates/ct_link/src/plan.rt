//! Which calls of a source or a sink in memory fail.
//! The calls are numbered from 1, and those that a test names fail.

ghost use Rattle.std.specs.Prelude.{◌≡◌, ◌≤◌, [], ◌∷◌, ◌++◌, if◌then◌else◌, OnErr, OnOk};
ghost use Rattle.ct_link.specs.Faults.{raised};
ghost use Rattle.ct_link.specs.Memory.{is_planned};

use ct_items::{Items, NoMemory};
use std::alloc::Global;

#[derive(Debug, Drop)]
pub(crate) struct Plan {
    /// How many calls were made, up to `u64::MAX`.
    pub(crate) calls: u64,
    pub(crate) failing: Items<u64>,
    /// How many calls failed, up to `u64::MAX`.
    pub(crate) faults: u64,
}

impl Plan {
    /// No call fails.
    pub(crate) fn new(alloc: Global) -> Plan
        ensures { result ≡ record { calls = 0; failing = []; faults = 0 } }
    {
        Plan {
            calls: 0,
            failing: Items::new(alloc),
            faults: 0,
        }
    }

    pub(crate) fn fail_at(&mut self, call: u64) -> Result<(), NoMemory>
        ensures ok { OnOk result (self.new ≡ record self.old { failing = self.old.failing ++ call ∷ [] }) }
        ensures err { OnErr result (self.new ≡ self.old) }
    {
        self.failing.push(call)
    }

    /// Counts one more call, and tells whether it fails.
    pub(crate) fn next_fails(&mut self) -> bool
        ensures planned { result ≡ is_planned self.old.failing self.new.calls }
        ensures calls { self.new.calls ≡ raised self.old.calls }
        ensures failing { self.new.failing ≡ self.old.failing }
        ensures later { self.old.faults ≤ self.new.faults }
        ensures faults { self.new.faults ≡ (if result then raised self.old.faults else self.old.faults) }
    {
        self.calls = self.calls.saturating_add(1);
        let fails = self.failing.as_slice().contains(&self.calls);
        if fails {
            self.faults = self.faults.saturating_add(1);
        }
        fails
    }
}
