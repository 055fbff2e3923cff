//! Why bytes could not be read.

ghost use Rattle.std.specs.Prelude.{◌≡◌};
ghost use Rattle.ct_codec.specs.declared.fault.Fault.TheVariants.{Memory};

use ct_items::NoMemory;
use std::alloc::{AllocError, AllocFailed};
use thiserror::Error;

/// Why a field could not be read from the front of some bytes.
#[derive(Clone, Copy, Debug, PartialEq, Eq, Error)]
pub enum Fault {
    /// Outside the format; so many bytes are left from the first field that does not fit.
    #[error("a field does not fit, {0} bytes before the end")]
    Bad(usize),
    #[error("out of memory")]
    Memory,
}

/// Why a value could not be read.
#[derive(Clone, Copy, Debug, PartialEq, Eq, Error)]
pub enum ReadFault {
    /// Outside the format: the place of the first field that does not fit, the end where a byte is
    /// missing.
    #[error("the bytes at {at} do not fit")]
    Bad { at: usize },
    #[error("out of memory")]
    Memory,
}

impl From<AllocError> for Fault {
    ghost from_gives = { λ _ e. e ≡ Memory };

    fn from(_refusal: AllocError) -> Fault {
        Fault::Memory
    }
}

impl<T: Drop> From<AllocFailed<T>> for Fault {
    ghost from_gives = { λ _ e. e ≡ Memory };

    fn from(_refusal: AllocFailed<T>) -> Fault {
        Fault::Memory
    }
}

impl From<NoMemory> for Fault {
    ghost from_gives = { λ _ e. e ≡ Memory };

    fn from(_refusal: NoMemory) -> Fault {
        Fault::Memory
    }
}
