//! A disk in memory, whose calls can be made to fail and whose crashes can be tried.

use crate::bytes::copy_out;
use crate::disk::Disk;
use crate::fault::{DiskError, DiskFault};
use crate::medium::Medium;
use crate::plans::{Plan, Plans};
use ct_items::NoMemory;
use std::alloc::Global;

/// Bytes in memory as a disk. It tells its content, and keeps what it has gone through.
#[derive(Drop)]
pub struct MemDisk {
    medium: Medium,
    plans: Plans,
    calls: u64,
    reads: u64,
    faults: u64,
}

impl MemDisk {
    ghost use Rattle.std.specs.Prelude.{◌≡◌, ◌≤◌, ◌==◌, ℕ, [], if◌then◌else◌, nat_le, IfOk, OnOk, OnErr};
    ghost use Rattle.ct_disk.specs.Disk.{Only, raised};
    ghost use Rattle.ct_disk.specs.Plans.{torn};
    ghost use Rattle.ct_disk.specs.History.{stable};
    ghost use Rattle.ct_disk.specs.MemDisk.{content_of, history_of, MayLeave, plan_of, SameDisk, IsFresh};

    /// An empty disk, on which no call fails.
    pub fn new(alloc: Global) -> MemDisk
        ensures content { content_of result ≡ [] }
        ensures stable { Only [] (MayLeave result) }
        ensures fresh { IsFresh result }
    {
        MemDisk {
            medium: Medium::new(alloc),
            plans: Plans::new(alloc),
            calls: 0,
            reads: 0,
            faults: 0,
        }
    }

    /// A disk with these bytes, all of them stable, on which no call fails.
    pub fn of(alloc: Global, bytes: &[u8]) -> Result<MemDisk, NoMemory>
        ensures content { IfOk result (λ disk. content_of disk ≡ bytes.now) }
        ensures stable { IfOk result (λ disk. Only bytes.now (MayLeave disk)) }
        ensures fresh { IfOk result IsFresh }
    {
        let mut disk = MemDisk::new(alloc);
        disk.medium.write(0, bytes, 0)?;
        disk.medium.sync();
        Ok(disk)
    }

    /// The bytes as a read gives them.
    pub fn bytes(&self) -> &[u8]
        ensures { result.now ≡ content_of self.now }
    {
        self.medium.bytes.as_slice()
    }

    /// Makes the call with this number fail, which then changes nothing. Calls count from 1.
    pub fn fail_at(&mut self, call: u64) -> Result<(), NoMemory>
        ensures ok { OnOk result ((k : ℕ) → plan_of self.new k ≡ (if k == call then Plan.Fails else plan_of self.old k)) }
        ensures err { OnErr result ((k : ℕ) → plan_of self.new k ≡ plan_of self.old k) }
        ensures same { SameDisk self.old self.new }
    {
        self.plans.fail_at(call)
    }

    /// Makes the call with this number fail half done: a write after its first half, a cut when it
    /// has cut, any other call with nothing done.
    pub fn tear_at(&mut self, call: u64) -> Result<(), NoMemory>
        ensures ok { OnOk result ((k : ℕ) → plan_of self.new k ≡ (if k == call then torn (plan_of self.old k) else plan_of self.old k)) }
        ensures err { OnErr result ((k : ℕ) → plan_of self.new k ≡ plan_of self.old k) }
        ensures same { SameDisk self.old self.new }
    {
        self.plans.tear_at(call)
    }

    /// Makes every call from this number on fail.
    pub fn fail_from(&mut self, call: u64)
        ensures plan { (k : ℕ) → plan_of self.new k ≡ (if nat_le call k then Plan.Fails else plan_of self.old k) }
        ensures same { SameDisk self.old self.new }
    {
        self.plans.fail_from(call);
    }

    /// What a crash leaves, as a disk on which no call fails. Pick 0 gives what was stable, pick 1
    /// what a read gives, and any other pick draws what was not synced from that number.
    pub fn crash(self, pick: u64) -> Result<MemDisk, NoMemory>
        ensures image { IfOk result (λ disk. MayLeave self (content_of disk)) }
        ensures stable { pick ≡ 0 → IfOk result (λ disk. content_of disk ≡ stable (history_of self)) }
        ensures shown { pick ≡ 1 → IfOk result (λ disk. content_of disk ≡ content_of self) }
        ensures only { IfOk result (λ disk. Only (content_of disk) (MayLeave disk)) }
        ensures fresh { IfOk result IsFresh }
    {
        let image = self.medium.image(pick)?;
        MemDisk::of(self.medium.alloc, &image)
    }

    /// Counts a call, and says how it is to go.
    fn begin(&mut self) -> Plan
        ensures plan { result ≡ plan_of self.old (raised self.old.calls) }
        ensures new { self.new ≡ record self.old { calls = raised self.old.calls } }
    {
        self.calls = self.calls.saturating_add(1);
        self.plans.plan(self.calls)
    }

    /// Counts a fault.
    fn count_fault(&mut self)
        ensures new { self.new ≡ record self.old { faults = raised self.old.faults } }
        ensures later { self.old.faults ≤ self.new.faults }
    {
        self.faults = self.faults.saturating_add(1);
    }
}

impl Disk for MemDisk {
    ghost use Rattle.std.specs.Prelude.{◌≡◌, ◌≤◌, ◌+◌, ◌-◌, ◌/◌, ◌^◌, ℕ, true, length, take, drop, min, refl, IfOk, OnOk};
    ghost use Rattle.std.proofs.Common.{lit≤};
    ghost use Rattle.ct_disk.specs.Disk.{Written, Resized, SizedByWrite, SizedByCut, GoesOn, Only, unchanged, by_write, by_cut, raised, CountsFault, HasCause};
    ghost use Rattle.ct_disk.specs.History.{wrote, cut_to};
    ghost use Rattle.ct_disk.specs.MemDisk.{content_of, history_of, plan_of, LooksAsPlanned, SyncsAsPlanned, ChangesAsPlanned, CountsOne, CountsOneFault, MayLeave, LeftSince};
    ghost use Rattle.ct_disk.specs.MemDiskLaws.{MayLeave-content, LeftSince-counts, LeftSince-only};

    ghost tells = { true };

    ghost reach = { 2 ^ 62 + 8192 };

    ghost content = { content_of };

    ghost may_leave = { MayLeave };

    ghost left_since = { LeftSince };

    ghost size = { λ disk. length (content_of disk) };

    ghost reads = { λ disk. disk.reads };

    ghost calls = { λ disk. disk.calls };

    ghost faults = { λ disk. disk.faults };

    ghost far = { lit≤ tt };

    ghost sized = { λ disk told. refl };

    ghost reads_now = { λ disk told. MayLeave-content disk };

    ghost counts_now = { λ from disk c told left. LeftSince-counts from disk c left };

    ghost only_now = { λ disk c told left. LeftSince-only disk c left };

    fn read(&mut self, at: u64, into: &mut [u8]) -> Result<usize, DiskFault>
        ensures planned { LooksAsPlanned (plan_of self.old (raised self.old.calls)) result }
        ensures count { IfOk result (λ n. n ≡ min (length into.old) (length (content_of self.old) - at)) }
        ensures bytes { IfOk result (λ n. take n into.new ≡ take n (drop at (content_of self.old))) }
        ensures rest { let most = min (length into.old) (length (content_of self.old) - at) in drop most into.new ≡ drop most into.old }
        ensures content { content_of self.new ≡ content_of self.old }
        ensures history { history_of self.new ≡ history_of self.old }
        ensures crash { GoesOn MayLeave LeftSince unchanged self.old self.new }
        ensures size { length (content_of self.new) ≡ length (content_of self.old) }
        ensures reads { self.new.reads ≡ raised self.old.reads }
        ensures calls { self.new.calls ≡ raised self.old.calls }
        ensures cause { CountsFault self.old.faults self.new.faults result }
        ensures faults { CountsOne self.old.faults self.new.faults result }
        ensures plans { (k : ℕ) → plan_of self.new k ≡ plan_of self.old k }
    {
        self.reads = self.reads.saturating_add(1);
        match self.begin() {
            Plan::Works => Ok(copy_out(&self.medium.bytes, at as usize, into)),
            Plan::Fails | Plan::Tears => {
                self.count_fault();
                Err(DiskFault)
            }
        }
    }

    fn write_at(&mut self, at: u64, bytes: &[u8]) -> Result<(), DiskError>
        requires { at + length bytes.now ≤ 2 ^ 62 + 8192 }
        ensures planned { ChangesAsPlanned (plan_of self.old (raised self.old.calls)) (wrote at bytes.now 0)
            (let half = length bytes.now / 2 in wrote at (take half bytes.now) (length bytes.now - half)) result self.old self.new }
        ensures content { Written result at bytes.now (content_of self.old) (content_of self.new) }
        ensures crash { GoesOn MayLeave LeftSince (by_write result at (length bytes.now)) self.old self.new }
        ensures size { SizedByWrite result at (length bytes.now) (length (content_of self.old)) (length (content_of self.new)) }
        ensures reads { self.new.reads ≡ self.old.reads }
        ensures calls { self.new.calls ≡ raised self.old.calls }
        ensures cause { HasCause self.old.faults self.new.faults result }
        ensures faults { CountsOneFault self.old.faults self.new.faults result }
        ensures plans { (k : ℕ) → plan_of self.new k ≡ plan_of self.old k }
    {
        match self.begin() {
            Plan::Works => {
                self.medium.write(at as usize, bytes, 0)?;
                Ok(())
            }
            Plan::Fails => {
                self.count_fault();
                Err(DiskError::Fault)
            }
            Plan::Tears => {
                let half = bytes.len() / 2;
                let missing = bytes.len() - half;
                self.medium.write(at as usize, &bytes[..half], missing)?;
                self.count_fault();
                Err(DiskError::Fault)
            }
        }
    }

    fn cut(&mut self, len: u64) -> Result<(), DiskError>
        ensures planned { ChangesAsPlanned (plan_of self.old (raised self.old.calls)) (cut_to len) (cut_to len) result self.old self.new }
        ensures content { Resized result len (content_of self.old) (content_of self.new) }
        ensures crash { GoesOn MayLeave LeftSince (by_cut result len) self.old self.new }
        ensures size { SizedByCut result len (length (content_of self.old)) (length (content_of self.new)) }
        ensures reads { self.new.reads ≡ self.old.reads }
        ensures calls { self.new.calls ≡ raised self.old.calls }
        ensures cause { HasCause self.old.faults self.new.faults result }
        ensures faults { CountsOneFault self.old.faults self.new.faults result }
        ensures plans { (k : ℕ) → plan_of self.new k ≡ plan_of self.old k }
    {
        match self.begin() {
            Plan::Works => {
                self.medium.cut(len as usize)?;
                Ok(())
            }
            Plan::Fails => {
                self.count_fault();
                Err(DiskError::Fault)
            }
            Plan::Tears => {
                self.medium.cut(len as usize)?;
                self.count_fault();
                Err(DiskError::Fault)
            }
        }
    }

    #[tactic(auto, using(crate::proofs::Histories::GoesOn_syncs))]
    fn sync(&mut self) -> Result<(), DiskFault>
        ensures planned { SyncsAsPlanned (plan_of self.old (raised self.old.calls)) result self.old self.new }
        ensures stable { OnOk result (Only (content_of self.old) (MayLeave self.new)) }
        ensures content { content_of self.new ≡ content_of self.old }
        ensures crash { GoesOn MayLeave LeftSince unchanged self.old self.new }
        ensures size { length (content_of self.new) ≡ length (content_of self.old) }
        ensures reads { self.new.reads ≡ self.old.reads }
        ensures calls { self.new.calls ≡ raised self.old.calls }
        ensures cause { CountsFault self.old.faults self.new.faults result }
        ensures faults { CountsOne self.old.faults self.new.faults result }
        ensures plans { (k : ℕ) → plan_of self.new k ≡ plan_of self.old k }
    {
        match self.begin() {
            Plan::Works => {
                self.medium.sync();
                Ok(())
            }
            Plan::Fails | Plan::Tears => {
                self.count_fault();
                Err(DiskFault)
            }
        }
    }

    fn len(&mut self) -> Result<u64, DiskFault>
        ensures planned { LooksAsPlanned (plan_of self.old (raised self.old.calls)) result }
        ensures length { IfOk result (λ n. n ≡ length (content_of self.old)) }
        ensures content { content_of self.new ≡ content_of self.old }
        ensures history { history_of self.new ≡ history_of self.old }
        ensures crash { GoesOn MayLeave LeftSince unchanged self.old self.new }
        ensures size { length (content_of self.new) ≡ length (content_of self.old) }
        ensures reads { self.new.reads ≡ self.old.reads }
        ensures calls { self.new.calls ≡ raised self.old.calls }
        ensures cause { CountsFault self.old.faults self.new.faults result }
        ensures faults { CountsOne self.old.faults self.new.faults result }
        ensures plans { (k : ℕ) → plan_of self.new k ≡ plan_of self.old k }
    {
        match self.begin() {
            Plan::Works => Ok(self.medium.bytes.len() as u64),
            Plan::Fails | Plan::Tears => {
                self.count_fault();
                Err(DiskFault)
            }
        }
    }
}
