//! What a fetch answers, and why a call of the frames was refused.

ghost use Rattle.std.specs.Prelude.{◌≡◌};
ghost use Rattle.ct_frames.specs.declared.fault.FrameFault.TheVariants.{Fault, Memory};

use ct_disk::DiskFault;
use ct_items::NoMemory;
use thiserror::Error;

/// How a fetch found its page.
#[derive(Clone, Copy, Debug, PartialEq, Eq)]
pub enum Fetched {
    /// The page was here already. The device was not called.
    Here,
    /// The page was read from the device.
    Moved,
}

/// Why a call of the frames was refused.
#[derive(Clone, Copy, Debug, PartialEq, Eq, Error)]
pub enum FrameFault {
    /// The device failed.
    #[error("the device failed")]
    Fault,
    /// The page with this number, as read, has a header outside the grammar.
    #[error("page {0} is damaged")]
    BadPage(u64),
    /// The call could not have the memory that it asked for.
    #[error("out of memory")]
    Memory,
}

impl From<DiskFault> for FrameFault {
    ghost from_gives = { λ _ error. error ≡ Fault };

    fn from(_fault: DiskFault) -> FrameFault {
        FrameFault::Fault
    }
}

impl From<NoMemory> for FrameFault {
    ghost from_gives = { λ _ error. error ≡ Memory };

    fn from(_refusal: NoMemory) -> FrameFault {
        FrameFault::Memory
    }
}
