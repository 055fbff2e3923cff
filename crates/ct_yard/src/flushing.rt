//! A whole flush of the log, and the cause of a halt in it.

ghost use Rattle.std.specs.Prelude.{◌≡◌, ◌<◌, ◌+◌, []};
ghost use Rattle.ct_log.specs.declared.stage.Stage.TheVariants.{Idle};
ghost use Rattle.ct_yard.specs.Telling.{telling};
ghost use Rattle.ct_yard.specs.Flushing.{Flushes, halt_cause};

use ct_disk::{Disk, DiskError, HaltCause};
use ct_log::Log;

/// Makes the groups that wait durable: their chunk, a sync, its gate, a sync.
/// After an `Err` a crash leaves the log with this chunk or without it.
pub(crate) fn flush<L: Disk>(log: &mut Log<L>) -> Result<(), DiskError>
    requires idle { log.old.flow.stage ≡ Idle }
    requires none { log.old.flow.taken ≡ [] }
    requires unflushed { log.old.flow.durable + 1 < log.old.flow.next }
    ensures { Flushes (telling L.tells L.faults L.content L.may_leave L.left_since) result log.old log.new }
{
    log.flush_step()?;
    log.flush_step()?;
    log.flush_step()?;
    log.flush_step()?;
    Ok(())
}

/// Why a store halts where a flush has failed.
pub(crate) fn halt_cause(error: DiskError) -> HaltCause
    ensures { result ≡ halt_cause error }
{
    match error {
        DiskError::Fault => HaltCause::Write,
        DiskError::Memory => HaltCause::Memory,
    }
}
