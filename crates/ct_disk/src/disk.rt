//! The trait `Disk`: bytes that can be read, written over, cut and made stable, and a crash that
//! may come at any moment.

ghost use Rattle.std.specs.Prelude.{◌≡◌, ◌≤◌, ◌+◌, ◌-◌, ◌^◌, ℕ, Bool, List, IsTrue, length, take, drop, min, IfOk, OnOk};
ghost use Rattle.ct_disk.specs.Disk.{Written, Resized, SizedByWrite, SizedByCut, GoesOn, Only, unchanged, by_write, by_cut, raised, CountsFault, HasCause};

use crate::fault::{DiskError, DiskFault};

/// A device of bytes. Places and lengths are in bytes from its start.
///
/// Between two syncs a crash may leave any bytes in each range that was written, and between the
/// old end and the new one; the bytes elsewhere stay. After a sync that succeeds it leaves what a
/// read gives.
pub trait Disk {
    /// Whether the type tells the content of its disks. The clauses on content and crashes hold
    /// where it does.
    ghost tells: { Bool };

    /// The place up to which a call may go.
    ghost reach: { ℕ };

    /// The bytes that a read gives.
    ghost content: { Self → List ℕ };

    /// What a crash at this moment may leave.
    ghost may_leave: { Self → List ℕ → Type 0 };

    /// What a crash may have left since the disk had the first value, up to the second: during a
    /// call or between two.
    ghost left_since: { Self → Self → List ℕ → Type 0 };

    /// How many bytes the disk holds.
    ghost size: { Self → ℕ };

    /// How many reads were made. This count and the two below stop at 2^64 - 1.
    ghost reads: { Self → ℕ };

    /// How many calls were made, of all kinds.
    ghost calls: { Self → ℕ };

    /// How often the disk has failed.
    ghost faults: { Self → ℕ };

    /// Fills `into` with the bytes from `at` on, or with those up to the end. Answers how many.
    fn read(&mut self, at: u64, into: &mut [u8]) -> Result<usize, DiskFault>
        requires { at + length into.old ≤ reach }
        ensures count { IfOk result (λ n. n ≡ min (length into.old) (size self.old - at)) }
        ensures bytes { IsTrue tells → IfOk result (λ n. take n into.new ≡ take n (drop at (content self.old))) }
        ensures rest { let most = min (length into.old) (size self.old - at) in drop most into.new ≡ drop most into.old }
        ensures content { IsTrue tells → content self.new ≡ content self.old }
        ensures crash { IsTrue tells → GoesOn may_leave left_since unchanged self.old self.new }
        ensures size { size self.new ≡ size self.old }
        ensures reads { reads self.new ≡ raised (reads self.old) }
        ensures calls { calls self.new ≡ raised (calls self.old) }
        ensures cause { CountsFault (faults self.old) (faults self.new) result };

    /// Writes over what stands at `at`. Past the end it first fills the gap with zeros.
    /// At `Fault` any part of the write may have happened, at `Memory` nothing.
    fn write_at(&mut self, at: u64, bytes: &[u8]) -> Result<(), DiskError>
        requires { at + length bytes.now ≤ reach }
        ensures content { IsTrue tells → Written result at bytes.now (content self.old) (content self.new) }
        ensures crash { IsTrue tells → GoesOn may_leave left_since (by_write result at (length bytes.now)) self.old self.new }
        ensures size { SizedByWrite result at (length bytes.now) (size self.old) (size self.new) }
        ensures reads { reads self.new ≡ reads self.old }
        ensures calls { calls self.new ≡ raised (calls self.old) }
        ensures cause { HasCause (faults self.old) (faults self.new) result };

    /// Gives the disk this length. It shortens, or lengthens with zeros.
    /// At `Fault` the disk has the old length or the new one, at `Memory` nothing has changed.
    fn cut(&mut self, len: u64) -> Result<(), DiskError>
        requires { len ≤ reach }
        ensures content { IsTrue tells → Resized result len (content self.old) (content self.new) }
        ensures crash { IsTrue tells → GoesOn may_leave left_since (by_cut result len) self.old self.new }
        ensures size { SizedByCut result len (size self.old) (size self.new) }
        ensures reads { reads self.new ≡ reads self.old }
        ensures calls { calls self.new ≡ raised (calls self.old) }
        ensures cause { HasCause (faults self.old) (faults self.new) result };

    /// After it a crash leaves what a read gives. At an `Err` nothing was made stable.
    fn sync(&mut self) -> Result<(), DiskFault>
        ensures content { IsTrue tells → content self.new ≡ content self.old }
        ensures stable { IsTrue tells → OnOk result (Only (content self.old) (may_leave self.new)) }
        ensures crash { IsTrue tells → GoesOn may_leave left_since unchanged self.old self.new }
        ensures size { size self.new ≡ size self.old }
        ensures reads { reads self.new ≡ reads self.old }
        ensures calls { calls self.new ≡ raised (calls self.old) }
        ensures cause { CountsFault (faults self.old) (faults self.new) result };

    /// How many bytes the disk holds.
    fn len(&mut self) -> Result<u64, DiskFault>
        ensures length { IfOk result (λ n. n ≡ size self.old) }
        ensures content { IsTrue tells → content self.new ≡ content self.old }
        ensures crash { IsTrue tells → GoesOn may_leave left_since unchanged self.old self.new }
        ensures size { size self.new ≡ size self.old }
        ensures reads { reads self.new ≡ reads self.old }
        ensures calls { calls self.new ≡ raised (calls self.old) }
        ensures cause { CountsFault (faults self.old) (faults self.new) result };

    /// Each disk may be called far enough.
    ghost far: { 2 ^ 62 ≤ reach };

    /// The size is the length of what a read gives.
    ghost sized: { (disk : Self) → IsTrue tells → size disk ≡ length (content disk) };

    /// A crash may always leave what a read gives.
    ghost reads_now: { (disk : Self) → IsTrue tells → may_leave disk (content disk) };

    /// This moment is one of those since any moment.
    ghost counts_now: { (from disk : Self) (c : List ℕ) → IsTrue tells → may_leave disk c → left_since from disk c };

    /// Since this moment there is no other.
    ghost only_now: { (disk : Self) (c : List ℕ) → IsTrue tells → left_since disk disk c → may_leave disk c };
}
