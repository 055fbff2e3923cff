//! A new log: its front, with the header's gate closed until it is opened.

ghost use Rattle.std.specs.Prelude.{◌≡◌, ◌≤◌, ◌+◌, ◌-◌, ◌^◌, ◌++◌, [], ◌∷◌, List, ℕ, length, IsTrue, OnOk};
ghost use Rattle.ct_disk.specs.Disk.{AllImages, Only, Torn, GoesOn, HasCause};
ghost use Rattle.ct_log.specs.Front.{zeros, is_id, name_plate, front_with, front};

use crate::places::{BASE, FIRST_CHUNK, HEADER_GATE, ID, OPEN, SIGNATURE};
use ct_disk::{Disk, DiskError};

/// Whether these bytes can be an id: 1 to 16, none of them zero.
pub fn is_id(id: &[u8]) -> bool
    ensures { result ≡ is_id id.now }
{
    !id.is_empty() && id.len() <= 16 && !id.contains(&0)
}

/// Makes an empty log on a device. The gate of its header is closed. `base` is the number of the last
/// transaction before the log. At an `Err` the device may hold anything.
pub fn make_log<L: Disk>(device: &mut L, id: &[u8], base: u64) -> Result<(), DiskError>
    requires id { IsTrue (is_id id.now) }
    requires base { base ≤ 2 ^ 63 }
    ensures made { IsTrue L.tells → OnOk result (L.content device.new ≡ front_with 0 id.now base ++ 0 ∷ []) }
    ensures stable { IsTrue L.tells → OnOk result (Only (L.content device.new) (L.may_leave device.new)) }
    // The last of its seven calls is the sync.
    ensures calls { L.calls device.new ≤ L.calls device.old + 7 }
    ensures cause { HasCause (L.faults device.old) (L.faults device.new) result }
{
    device.cut(0)?;
    write_name_plate(device, id, base)?;
    pad(device, FIRST_CHUNK + 1)?;
    device.sync()?;
    Ok(())
}

/// Writes the header up to its gate on an empty device.
fn write_name_plate<L: Disk>(device: &mut L, id: &[u8], base: u64) -> Result<(), DiskError>
    requires { length id.now ≤ 16 }
    ensures written { IsTrue L.tells → L.content device.old ≡ [] → OnOk result (L.content device.new ≡ name_plate id.now base) }
    ensures calls { L.calls device.new ≤ L.calls device.old + 4 }
    ensures cause { HasCause (L.faults device.old) (L.faults device.new) result }
{
    write_behind(device, 0, &SIGNATURE)?;
    write_behind(device, ID as u64, id)?;
    pad(device, BASE as u64)?;
    write_behind(device, BASE as u64, &base.to_le_bytes())?;
    Ok(())
}

/// Writes bytes at the device's end.
pub fn write_behind<L: Disk>(device: &mut L, end: u64, bytes: &[u8]) -> Result<(), DiskError>
    requires { end + length bytes.now ≤ 2 ^ 62 }
    ensures written { IsTrue L.tells → length (L.content device.old) ≡ end
        → OnOk result (L.content device.new ≡ L.content device.old ++ bytes.now) }
    ensures calls { L.calls device.new ≤ L.calls device.old + 1 }
    ensures cause { HasCause (L.faults device.old) (L.faults device.new) result }
{
    device.write_at(end, bytes)
}

/// Adds zeros at the device's end, up to this length.
pub fn pad<L: Disk>(device: &mut L, len: u64) -> Result<(), DiskError>
    requires { len ≤ 2 ^ 62 }
    ensures padded { IsTrue L.tells → length (L.content device.old) ≤ len
        → OnOk result (L.content device.new ≡ L.content device.old ++ zeros (len - length (L.content device.old))) }
    ensures calls { L.calls device.new ≤ L.calls device.old + 1 }
    ensures cause { HasCause (L.faults device.old) (L.faults device.new) result }
{
    device.cut(len)
}

/// Opens the gate of the header.
/// At an `Err` and at any moment before the end the gate may be open or closed.
pub fn open_gate<L: Disk>(device: &mut L) -> Result<(), DiskError>
    ensures opened { IsTrue L.tells → (id : List ℕ) (base : ℕ) (behind : List ℕ) → IsTrue (is_id id)
        → L.content device.old ≡ front_with 0 id base ++ behind → OnOk result (L.content device.new ≡ front id base ++ behind) }
    ensures stable { IsTrue L.tells → OnOk result (Only (L.content device.new) (L.may_leave device.new)) }
    ensures crash { IsTrue L.tells → GoesOn L.may_leave L.left_since (Torn 36 1) device.old device.new }
    ensures left { IsTrue L.tells → (id : List ℕ) (base : ℕ) (behind : List ℕ) → IsTrue (is_id id)
        → AllImages (λ c. c ≡ front_with 0 id base ++ behind) (L.may_leave device.old)
        → AllImages (λ c. (gate : ℕ) × (c ≡ front_with gate id base ++ behind)) (L.may_leave device.new) }
    ensures cause { HasCause (L.faults device.old) (L.faults device.new) result }
{
    device.write_at(HEADER_GATE, &[OPEN])?;
    device.sync()?;
    Ok(())
}
