//! Reading bytes of a log.
//! What a chunk's gate and length say, and where a log ends.

ghost use Rattle.std.specs.Prelude.{◌≡◌, ◌↔◌, ◌≤◌, ◌<◌, ◌+◌, ◌^◌, ℕ, slice_index, min, IsTrue, IfOk, IsErrOf, length, take, drop};
ghost use Rattle.std.specs.Int.{w32, from_le_bytes};
ghost use Rattle.ct_disk.specs.Disk.{CountsFault, Rose};
ghost use Rattle.ct_log.specs.Reading.{IsRead};

use crate::places::{LAST_END, OPEN};
use ct_disk::{Disk, DiskFault};
use ct_items::{Items, NoMemory};
use std::alloc::{AllocError, Global};
use thiserror::Error;

/// Why a log can't be read.
#[derive(Clone, Copy, Debug, PartialEq, Eq, Error)]
pub enum LogFault {
    /// It is outside its grammar at this place.
    #[error("the log is damaged at {at}")]
    Bad { at: u64 },
    /// The device failed.
    #[error("the device failed")]
    Fault,
    /// The call could not have the memory that it asked for.
    #[error("out of memory")]
    Memory,
}

impl From<DiskFault> for LogFault {
    ghost use Rattle.std.specs.Prelude.{◌≡◌};
    ghost use Rattle.ct_log.specs.declared.read.LogFault.TheVariants.{Fault};

    ghost from_gives = { λ _ error. error ≡ Fault };

    fn from(_fault: DiskFault) -> LogFault {
        LogFault::Fault
    }
}

impl From<NoMemory> for LogFault {
    ghost use Rattle.std.specs.Prelude.{◌≡◌};
    ghost use Rattle.ct_log.specs.declared.read.LogFault.TheVariants.{Memory};

    ghost from_gives = { λ _ error. error ≡ Memory };

    fn from(_refusal: NoMemory) -> LogFault {
        LogFault::Memory
    }
}

impl From<AllocError> for LogFault {
    ghost use Rattle.std.specs.Prelude.{◌≡◌};
    ghost use Rattle.ct_log.specs.declared.read.LogFault.TheVariants.{Memory};

    ghost from_gives = { λ _ error. error ≡ Memory };

    fn from(_refusal: AllocError) -> LogFault {
        LogFault::Memory
    }
}

/// Whether a chunk's gate is open.
pub(crate) fn has_open_gate(frame: &[u8; 5]) -> bool
    ensures { IsTrue result ↔ (slice_index frame.now 0 ≡ 1) }
{
    frame[0] == OPEN
}

/// The length of a chunk's groups.
pub(crate) fn groups_len(frame: &[u8; 5]) -> u32
    ensures len { result ≡ from_le_bytes w32 (drop 1 frame.now) }
    ensures bytes { (k : ℕ) → slice_index frame.now k < 256 }
{
    u32::from_le_bytes([frame[1], frame[2], frame[3], frame[4]])
}

/// Where a log on a device ends at most.
pub(crate) fn log_end<L: Disk>(device: &mut L) -> Result<u64, DiskFault>
    ensures end { IfOk result (λ end. end ≡ min (L.size device.old) (2 ^ 62)) }
    ensures read { IsTrue L.tells → IsRead L.content L.may_leave L.left_since device.old device.new }
    ensures size { L.size device.new ≡ L.size device.old }
    ensures reads { L.reads device.new ≡ L.reads device.old }
    ensures cause { CountsFault (L.faults device.old) (L.faults device.new) result }
{
    let len = device.len()?;
    Ok(len.min(LAST_END))
}

/// Reads bytes that the device has in place of others, whose memory they take over.
pub(crate) fn read_over<L: Disk>(
    others: Items<u8>,
    device: &mut L,
    place: u64,
    len: usize,
) -> Result<Items<u8>, LogFault>
    requires { place + len ≤ min (L.size device.old) (2 ^ 62) }
    ensures bytes { IsTrue L.tells → IfOk result (λ bytes. bytes ≡ take len (drop place (L.content device.old))) }
    ensures len { IfOk result (λ bytes. length bytes ≡ len) }
    ensures read { IsTrue L.tells → IsRead L.content L.may_leave L.left_since device.old device.new }
    ensures size { L.size device.new ≡ L.size device.old }
    ensures reads { L.reads device.new ≤ L.reads device.old + 1 }
    ensures good { (at : ℕ) → ¬ (IsErrOf result (LogFault.Bad at)) }
    ensures later { L.faults device.old ≤ L.faults device.new }
    ensures cause { IsErrOf result LogFault.Fault → Rose (L.faults device.old) (L.faults device.new) }
{
    let mut bytes = others.into_vec();
    bytes.resize(len, 0)?;
    device.read(place, bytes.as_mut_slice())?;
    Ok(Items::from_vec(bytes))
}
