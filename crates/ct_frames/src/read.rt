//! Reading a page from its device.

ghost use Rattle.std.specs.Prelude.{◌≡◌, ◌+◌, ◌*◌, ◌-◌, ◌^◌, ◌<◌, IsTrue, OnOk, replicate};
ghost use Rattle.ct_disk.specs.Disk.{GoesOn, unchanged, raised, CountsFault};
ghost use Rattle.ct_frames.specs.Pages.{IsPageRead};

use ct_disk::{Disk, DiskFault};
use ct_page::PAGE_SIZE;

/// Reads a page over zeros, which stay where the device has ended.
pub(crate) fn read_page<P: Disk>(
    device: &mut P,
    page: u64,
    bytes: &mut [u8; PAGE_SIZE],
) -> Result<(), DiskFault>
    requires within { page < 2 ^ 50 }
    requires zeros { bytes.old ≡ replicate 4096 0 }
    ensures page { OnOk result (IsPageRead P.tells (P.content device.old) (P.size device.old) page bytes.new) }
    ensures content { IsTrue P.tells → P.content device.new ≡ P.content device.old }
    ensures crash { IsTrue P.tells → GoesOn P.may_leave P.left_since unchanged device.old device.new }
    ensures size { P.size device.new ≡ P.size device.old }
    ensures reads { P.reads device.new ≡ raised (P.reads device.old) }
    ensures calls { P.calls device.new ≡ raised (P.calls device.old) }
    ensures cause { CountsFault (P.faults device.old) (P.faults device.new) result }
{
    device.read(page * PAGE_SIZE as u64, bytes)?;
    Ok(())
}
