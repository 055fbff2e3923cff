//! What a call answers, before it is written as a line.

use ct_disk::HaltCause;
use ct_yard::CommitFault;

/// The answer of a call.
#[derive(Clone, Copy, Debug, PartialEq, Eq)]
pub enum Reply {
    Ok,
    /// A record's or a transaction's number.
    Number(u64),
    /// The record that is now the session's current one of this file.
    Found { file: u16 },
    Unbuilt,
    NoFile,
    NoIndex,
    Exists,
    BadDef,
    NoCurrent,
    BadLen,
    FileFull,
    Duplicate,
    NotFound,
    Halted(HaltCause),
    Memory,
}

impl From<CommitFault> for Reply {
    ghost use Rattle.std.specs.Prelude.{◌≡◌};
    ghost use Rattle.ct_isam.specs.Making.{told_of};

    ghost from_gives = { λ fault reply. reply ≡ told_of fault };

    fn from(fault: CommitFault) -> Reply {
        match fault {
            CommitFault::Memory => Reply::Memory,
            CommitFault::Halted(cause) => Reply::Halted(cause),
        }
    }
}
