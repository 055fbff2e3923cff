//! Why a call of a disk was refused.

ghost use Rattle.std.specs.Prelude.{◌≡◌};
ghost use Rattle.ct_disk.specs.declared.fault.DiskError.TheVariants.{Fault, Memory};

use ct_items::NoMemory;
use thiserror::Error;

/// The disk failed.
#[derive(Clone, Copy, Debug, PartialEq, Eq, Error)]
#[error("the disk failed")]
pub struct DiskFault;

/// Why a write or a cut was refused.
#[derive(Clone, Copy, Debug, PartialEq, Eq, Error)]
pub enum DiskError {
    /// The disk failed.
    #[error("the disk failed")]
    Fault,
    /// The call could not have the memory that it asked for, and changed nothing.
    #[error("out of memory")]
    Memory,
}

impl From<DiskFault> for DiskError {
    ghost from_gives = { λ _ error. error ≡ Fault };

    fn from(_fault: DiskFault) -> DiskError {
        DiskError::Fault
    }
}

impl From<NoMemory> for DiskError {
    ghost from_gives = { λ _ error. error ≡ Memory };

    fn from(_refusal: NoMemory) -> DiskError {
        DiskError::Memory
    }
}
