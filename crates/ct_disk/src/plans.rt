//! Which calls of a disk in memory are to fail.

ghost use Rattle.std.specs.Prelude.{◌≡◌, ◌==◌, ℕ, if◌then◌else◌, nat_le, OnOk, OnErr};
ghost use Rattle.ct_disk.specs.Plans.{torn, plan_at};

use ct_items::{Items, NoMemory};
use std::alloc::Global;

/// How a call goes.
#[derive(Clone, Copy, Debug, PartialEq, Eq)]
pub enum Plan {
    /// It does what it is asked.
    Works,
    /// It fails and changes nothing.
    Fails,
    /// It fails, a write after its first half and a cut when it is done.
    Tears,
}

/// The numbers of the calls that are to fail, from 1.
#[derive(Drop)]
pub(crate) struct Plans {
    pub(crate) fails: Items<u64>,
    pub(crate) tears: Items<u64>,
    pub(crate) fails_from: Option<u64>,
}

impl Plans {
    /// Each call works.
    pub(crate) fn new(alloc: Global) -> Plans
        ensures { (call : ℕ) → plan_at result call ≡ Plan.Works }
    {
        Plans {
            fails: Items::new(alloc),
            tears: Items::new(alloc),
            fails_from: None,
        }
    }

    /// How the call with this number is to go.
    pub(crate) fn plan(&self, call: u64) -> Plan
        ensures { result ≡ plan_at self.now call }
    {
        if let Some(from) = self.fails_from
            && call >= from
        {
            return Plan::Fails;
        }
        if self.fails.as_slice().contains(&call) {
            return Plan::Fails;
        }
        if self.tears.as_slice().contains(&call) {
            return Plan::Tears;
        }
        Plan::Works
    }

    /// Makes one call fail.
    pub(crate) fn fail_at(&mut self, call: u64) -> Result<(), NoMemory>
        ensures ok { OnOk result ((k : ℕ) → plan_at self.new k ≡ (if k == call then Plan.Fails else plan_at self.old k)) }
        ensures err { OnErr result ((k : ℕ) → plan_at self.new k ≡ plan_at self.old k) }
    {
        self.fails.push(call)
    }

    /// Makes one call tear, unless it is to fail.
    pub(crate) fn tear_at(&mut self, call: u64) -> Result<(), NoMemory>
        ensures ok { OnOk result ((k : ℕ) → plan_at self.new k ≡ (if k == call then torn (plan_at self.old k) else plan_at self.old k)) }
        ensures err { OnErr result ((k : ℕ) → plan_at self.new k ≡ plan_at self.old k) }
    {
        self.tears.push(call)
    }

    /// Makes every call from this number on fail.
    pub(crate) fn fail_from(&mut self, call: u64)
        ensures { (k : ℕ) → plan_at self.new k ≡ (if nat_le call k then Plan.Fails else plan_at self.old k) }
    {
        let from = match self.fails_from {
            Some(earlier) => earlier.min(call),
            None => call,
        };
        self.fails_from = Some(from);
    }
}
