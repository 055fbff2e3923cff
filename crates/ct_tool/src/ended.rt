//! How a run ends.

ghost use Rattle.std.specs.Prelude.{◌≡◌};
ghost use Rattle.ct_tool.specs.Ends.{status_of, stopped_by, open_cause, put_cause};

use crate::input::Stop;
use ct_disk::HaltCause;
use ct_link::SinkError;
use ct_recover::OpenFault;
use thiserror::Error;

/// Why a run ended, in the words that are printed.
#[derive(Clone, Copy, Debug, PartialEq, Eq, Error)]
pub enum Cause {
    /// The command is done.
    #[error("DONE")]
    Done,
    /// The words are no command.
    #[error("USAGE")]
    Usage,
    /// The command is not built yet.
    #[error("UNBUILT")]
    Unbuilt,
    /// There is no store.
    #[error("UNDONE")]
    Undone,
    /// There is a store already.
    #[error("NOTEMPTY")]
    NotEmpty,
    /// The log is damaged at this place.
    #[error("BADLOG {0}")]
    BadLog(u64),
    /// A page is damaged.
    #[error("BADPAGE {0}")]
    BadPage(u64),
    /// A number stands at its last value.
    #[error("LIMIT")]
    Limit,
    /// A device failed.
    #[error("DEVICE")]
    Device,
    /// There was no memory.
    #[error("MEMORY")]
    Memory,
    /// The input failed.
    #[error("SOURCE")]
    Source,
    /// The output failed.
    #[error("SINK")]
    Sink,
    /// The input is longer than a run takes.
    #[error("LONG")]
    Long,
}

impl Cause {
    /// The exit status.
    pub fn status(self) -> u8
        ensures { result ≡ status_of self }
    {
        match self {
            Cause::Done => 0,
            Cause::Usage => 1,
            Cause::Unbuilt
            | Cause::Undone
            | Cause::NotEmpty
            | Cause::BadLog(_)
            | Cause::BadPage(_)
            | Cause::Limit => 2,
            Cause::Device => 3,
            Cause::Memory => 4,
            Cause::Source => 5,
            Cause::Sink => 6,
            Cause::Long => 8,
        }
    }
}

/// The end of a run: its exit status and its cause, the devices, and the number of the last transaction.
pub struct Ended<P, L> {
    pub status: u8,
    pub cause: Cause,
    pub pages: P,
    pub log: L,
    pub front: u64,
}

impl<P, L> Ended<P, L> {
    /// A run that ended so.
    pub(crate) fn by(cause: Cause, pages: P, log: L, front: u64) -> Ended<P, L>
        ensures status { result.status ≡ status_of cause }
        ensures cause { result.cause ≡ cause }
        ensures pages { result.pages ≡ pages }
        ensures log { result.log ≡ log }
        ensures front { result.front ≡ front }
    {
        Ended {
            status: cause.status(),
            cause,
            pages,
            log,
            front,
        }
    }
}

/// Why a session's run ended: what stopped its input, or, at the input's or the session's end, what halted the store.
pub(crate) fn cause_of(stop: Stop, halt: Option<HaltCause>) -> Cause
    ensures { result ≡ stopped_by stop halt }
{
    match stop {
        Stop::End | Stop::Quit => match halt {
            None => Cause::Done,
            Some(HaltCause::Write | HaltCause::Read) => Cause::Device,
            Some(HaltCause::Memory) => Cause::Memory,
            Some(HaltCause::BadPage(page)) => Cause::BadPage(page),
            Some(HaltCause::BadLog(place)) => Cause::BadLog(place),
            Some(HaltCause::Limit) => Cause::Limit,
        },
        Stop::Source => Cause::Source,
        Stop::Sink => Cause::Sink,
        Stop::Memory => Cause::Memory,
        Stop::Long => Cause::Long,
    }
}

/// Why a run ended whose store was not made or not opened.
pub(crate) fn open_cause(fault: OpenFault) -> Cause
    ensures { result ≡ open_cause fault }
{
    match fault {
        OpenFault::NotEmpty => Cause::NotEmpty,
        OpenFault::Undone => Cause::Undone,
        OpenFault::BadLog(place) => Cause::BadLog(place),
        OpenFault::Device => Cause::Device,
        OpenFault::Memory => Cause::Memory,
    }
}

/// Why a run ended whose line was put, or was not.
pub(crate) fn put_cause(put: Result<(), SinkError>) -> Cause
    ensures { result ≡ put_cause put }
{
    match put {
        Ok(()) => Cause::Done,
        Err(SinkError::Fault) => Cause::Sink,
        Err(SinkError::Memory) => Cause::Memory,
    }
}
