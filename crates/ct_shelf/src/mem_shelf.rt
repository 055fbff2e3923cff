//! A shelf in memory, whose calls can be made to fail.
//! A name stands in one entry, with its device while that is at home.

use crate::shelf::{Shelf, ShelfRefusal};
use ct_disk::MemDisk;
use ct_items::{Items, NoMemory};
use std::alloc::Global;
use std::mem;

/// A name of the shelf.
#[derive(Drop)]
pub(crate) struct Entry {
    name: Items<u8>,
    /// The device, unless it is lent.
    device: Option<MemDisk>,
}

/// Devices in memory by name. It tells what it has.
#[derive(Drop)]
pub struct MemShelf {
    alloc: Global,
    entries: Vec<Entry>,
    failing: Items<u64>,
    calls: u64,
    faults: u64,
}

impl MemShelf {
    ghost use Rattle.std.specs.Prelude.{◌≡◌, ◌==◌, ◌<◌, ◌∷◌, ◌++◌, [], ℕ, List, false, true, if◌then◌else◌, OnOk, OnErr, length, slice_set, get_or};
    ghost use Rattle.std.specs.Option.{is_some};
    ghost use Rattle.ct_shelf.specs.declared.mem_shelf.Entry.{Entry};
    ghost use Rattle.std.specs.List.{position};
    ghost use Rattle.ct_disk.specs.Disk.{raised};
    ghost use Rattle.ct_shelf.specs.Shelf.{free};
    ghost use Rattle.ct_shelf.specs.Memory.{is_named, mem_place, is_planned};

    /// An empty shelf, on which no call fails.
    pub fn new(alloc: Global) -> MemShelf
        ensures empty { (name : List ℕ) → mem_place result name ≡ free }
        ensures plan { (call : ℕ) → is_planned result call ≡ false }
        ensures faults { result.faults ≡ 0 }
    {
        MemShelf {
            alloc,
            entries: Vec::new(alloc),
            failing: Items::new(alloc),
            calls: 0,
            faults: 0,
        }
    }

    /// Makes the call of `make` or `find` with this number fail, which then changes nothing, where it
    /// is not refused for its name. These calls count from 1.
    pub fn fail_at(&mut self, call: u64) -> Result<(), NoMemory>
        ensures ok { OnOk result ((k : ℕ) → is_planned self.new k ≡ (if k == call then true else is_planned self.old k)) }
        ensures err { OnErr result (self.new ≡ self.old) }
        ensures same { (name : List ℕ) → mem_place self.new name ≡ mem_place self.old name }
    {
        self.failing.push(call)
    }

    /// Where the name stands among the entries.
    fn position(&self, name: &[u8]) -> Option<usize>
        ensures { result ≡ position (is_named name.now) self.now.entries.items }
    {
        self.entries
            .iter()
            .position(|entry| entry.name.as_slice() == name)
    }

    /// Counts a call, and tells whether it is to fail.
    fn begin(&mut self) -> bool
        ensures planned { result ≡ is_planned self.old (raised self.old.calls) }
        ensures new { self.new ≡ record self.old { calls = raised self.old.calls } }
    {
        self.calls = self.calls.saturating_add(1);
        self.failing.as_slice().contains(&self.calls)
    }

    /// Counts a fault.
    fn count_fault(&mut self)
        ensures { self.new ≡ record self.old { faults = raised self.old.faults } }
    {
        self.faults = self.faults.saturating_add(1);
    }

    /// Adds a name, whose device is lent.
    fn add(&mut self, name: &[u8]) -> Result<(), NoMemory>
        ensures ok { OnOk result (self.new.entries.items ≡ self.old.entries.items ++ (record { name = name.now; device = None }) ∷ []) }
        ensures err { OnErr result (self.new.entries.items ≡ self.old.entries.items) }
        ensures faults { self.new.faults ≡ self.old.faults }
        ensures plan { (call : ℕ) → is_planned self.new call ≡ is_planned self.old call }
        ensures calls { self.new.calls ≡ self.old.calls }
    {
        let name = Items::from_slice(self.alloc, name)?;
        self.entries.push(Entry { name, device: None })?;
        Ok(())
    }

    /// Whether the device of an entry is at home.
    fn is_home(&self, at: usize) -> bool
        requires { at < length self.now.entries.items }
        ensures { (none : Entry) → result ≡ is_some (get_or self.now.entries.items at none).device }
    {
        self.entries[at].device.is_some()
    }

    /// Puts a device, or none, in the place of the one of an entry, which is given out.
    fn exchange(&mut self, at: usize, device: Option<MemDisk>) -> Option<MemDisk>
        requires { at < length self.old.entries.items }
        ensures device { (none : Entry) → result ≡ (get_or self.old.entries.items at none).device }
        ensures entries { (none : Entry) → self.new.entries.items ≡ slice_set self.old.entries.items at (record (get_or self.old.entries.items at none) { device = device }) }
        ensures faults { self.new.faults ≡ self.old.faults }
        ensures plan { (call : ℕ) → is_planned self.new call ≡ is_planned self.old call }
        ensures calls { self.new.calls ≡ self.old.calls }
    {
        mem::replace(&mut self.entries[at].device, device)
    }
}

impl Shelf for MemShelf {
    type D = MemDisk;

    ghost use Rattle.std.specs.Prelude.{◌≡◌, ℕ, true, length, IfOk};
    ghost use Rattle.ct_disk.specs.Disk.{raised};
    ghost use Rattle.ct_disk.specs.MemDisk.{content_of, IsFresh};
    ghost use Rattle.ct_shelf.specs.Shelf.{Makes, Finds, OthersStay, IsMakeAnswer, IsFindAnswer, CountsShelfFault, returned};
    ghost use Rattle.ct_shelf.specs.Memory.{mem_place, is_planned, FailsAsPlanned};

    ghost tells = { true };

    ghost place = { mem_place };

    ghost faults = { λ shelf. shelf.faults };

    fn make(&mut self, name: &[u8]) -> Result<MemDisk, ShelfRefusal>
        ensures planned { FailsAsPlanned result (is_planned self.old (raised self.old.calls)) }
        ensures place { Makes result (mem_place self.old name.now) (mem_place self.new name.now) }
        ensures others { OthersStay name.now (mem_place self.old) (mem_place self.new) }
        ensures empty { IfOk result (λ device. length (content_of device) ≡ 0) }
        ensures fresh { IfOk result IsFresh }
        ensures never { IsMakeAnswer result }
        ensures cause { CountsShelfFault result self.old.faults self.new.faults }
        ensures calls { self.new.calls ≡ raised self.old.calls }
        ensures plan { (call : ℕ) → is_planned self.new call ≡ is_planned self.old call }
    {
        let fails = self.begin();
        if self.position(name).is_some() {
            return Err(ShelfRefusal::Exists);
        }
        if fails {
            self.count_fault();
            return Err(ShelfRefusal::Fault);
        }
        match self.add(name) {
            Ok(()) => Ok(MemDisk::new(self.alloc)),
            Err(_) => Err(ShelfRefusal::Memory),
        }
    }

    fn find(&mut self, name: &[u8]) -> Result<MemDisk, ShelfRefusal>
        ensures planned { FailsAsPlanned result (is_planned self.old (raised self.old.calls)) }
        ensures place { Finds result (mem_place self.old name.now) (mem_place self.new name.now) }
        ensures others { OthersStay name.now (mem_place self.old) (mem_place self.new) }
        ensures never { IsFindAnswer result }
        ensures cause { CountsShelfFault result self.old.faults self.new.faults }
        ensures calls { self.new.calls ≡ raised self.old.calls }
        ensures plan { (call : ℕ) → is_planned self.new call ≡ is_planned self.old call }
    {
        let fails = self.begin();
        let Some(at) = self.position(name) else {
            return Err(ShelfRefusal::Missing);
        };
        if !self.is_home(at) {
            return Err(ShelfRefusal::Missing);
        }
        if fails {
            self.count_fault();
            return Err(ShelfRefusal::Fault);
        }
        match self.exchange(at, None) {
            Some(device) => Ok(device),
            None => Err(ShelfRefusal::Missing),
        }
    }

    fn give_back(&mut self, name: &[u8], device: MemDisk)
        ensures place { mem_place self.new name.now ≡ returned device (mem_place self.old name.now) }
        ensures others { OthersStay name.now (mem_place self.old) (mem_place self.new) }
        ensures faults { self.new.faults ≡ self.old.faults }
        ensures calls { self.new.calls ≡ self.old.calls }
        ensures plan { (call : ℕ) → is_planned self.new call ≡ is_planned self.old call }
    {
        let Some(at) = self.position(name) else {
            return;
        };
        if self.is_home(at) {
            return;
        }
        let _ = self.exchange(at, Some(device));
    }
}
