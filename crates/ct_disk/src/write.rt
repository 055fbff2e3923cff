//! A write that is made stable.

ghost use Rattle.std.specs.Prelude.{◌≡◌, ◌≤◌, ◌+◌, IsTrue, length, OnOk, IsErrOf};
ghost use Rattle.ct_disk.specs.Disk.{overlaid, Only, Torn, GoesOn, HasCause};

use crate::disk::Disk;
use crate::fault::DiskError;

/// Writes over what stands at `at`, and makes it stable. At an `Err` a crash may leave any part of
/// the write.
pub fn write_through<D: Disk>(disk: &mut D, at: u64, bytes: &[u8]) -> Result<(), DiskError>
    requires { at + length bytes.now ≤ D.reach }
    ensures content { IsTrue D.tells → OnOk result (D.content disk.new ≡ overlaid (D.content disk.old) at bytes.now) }
    ensures stable { IsTrue D.tells → OnOk result (Only (overlaid (D.content disk.old) at bytes.now) (D.may_leave disk.new)) }
    ensures crash { IsTrue D.tells → GoesOn D.may_leave D.left_since (Torn at (length bytes.now)) disk.old disk.new }
    ensures memory { IsErrOf result DiskError.Memory → IsTrue D.tells → D.content disk.new ≡ D.content disk.old }
    ensures cause { HasCause (D.faults disk.old) (D.faults disk.new) result }
{
    disk.write_at(at, bytes)?;
    disk.sync()?;
    Ok(())
}
