//! The counts that a disk keeps of its calls. They stop at `u64::MAX`.

ghost use Rattle.std.specs.Prelude.{◌≡◌, ◌≤◌};
ghost use Rattle.ct_disk.specs.Disk.{raised};

/// How many calls were made, how many of them read, and how often one failed.
#[derive(Clone, Copy, Debug, PartialEq, Eq)]
pub(crate) struct Counts {
    pub(crate) reads: u64,
    pub(crate) calls: u64,
    pub(crate) faults: u64,
}

impl Counts {
    pub(crate) const NONE: Counts = Counts {
        reads: 0,
        calls: 0,
        faults: 0,
    };

    /// Counts a call that does not read.
    pub(crate) fn call(&mut self)
        ensures { self.new ≡ record self.old { calls = raised self.old.calls } }
    {
        self.calls = self.calls.saturating_add(1);
    }

    /// Counts a call that reads.
    pub(crate) fn read(&mut self)
        ensures { self.new ≡ record self.old { reads = raised self.old.reads; calls = raised self.old.calls } }
    {
        self.reads = self.reads.saturating_add(1);
        self.calls = self.calls.saturating_add(1);
    }

    /// Counts a fault.
    pub(crate) fn fault(&mut self)
        ensures new { self.new ≡ record self.old { faults = raised self.old.faults } }
        ensures later { self.old.faults ≤ self.new.faults }
    {
        self.faults = self.faults.saturating_add(1);
    }
}
