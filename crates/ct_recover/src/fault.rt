//! Why a store was not made or not opened.

ghost use Rattle.std.specs.Prelude.{◌≡◌};
ghost use Rattle.ct_recover.specs.Faults.{fault_of};

use ct_log::LogFault;
use thiserror::Error;

/// Why a store was not made or not opened.
#[derive(Clone, Copy, Debug, PartialEq, Eq, Error)]
pub enum OpenFault {
    /// There is a store: the gate of its header is open.
    #[error("there is a store")]
    NotEmpty,
    /// There is no store: the gate of its header is not open.
    #[error("there is no store")]
    Undone,
    /// The log is damaged at this place.
    #[error("the log is damaged at {0}")]
    BadLog(u64),
    /// A device failed.
    #[error("a device failed")]
    Device,
    /// There was no memory.
    #[error("out of memory")]
    Memory,
}

/// Why a log that can't be read is not opened.
pub(crate) fn fault_of(fault: LogFault) -> OpenFault
    ensures { result ≡ fault_of fault }
{
    match fault {
        LogFault::Bad { at } => OpenFault::BadLog(at),
        LogFault::Fault => OpenFault::Device,
        LogFault::Memory => OpenFault::Memory,
    }
}
