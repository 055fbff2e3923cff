//! `exec`: the store opened, and one session over the input.

ghost use Rattle.std.specs.Prelude.{◌≡◌, ◌⊎◌, ◌<◌, ◌≤◌, ◌+◌, ◌^◌, ℕ, List, false, IsTrue};
ghost use Rattle.std.specs.Io.KnownBytes.{Keeps};
ghost use Rattle.ct_log.specs.Heads.{has_open_header};
ghost use Rattle.ct_log.specs.Reading.{IsRead, log_bytes};
ghost use Rattle.ct_recover.specs.Opening.{IsBad};
ghost use Rattle.ct_tool.specs.Ends.{status_of};
ghost use Rattle.ct_tool.specs.Causes.{IsExecCause, HasRunCause};
ghost use Rattle.ct_tool.specs.Runs.{RanSession, RanNone, IsOver, KeepsStore};
ghost use Rattle.ct_tool.specs.Talking.{input_of, output_of};
ghost use Rattle.ct_yard.specs.Telling.{telling};

use crate::ended::{Cause, Ended, open_cause};
use crate::session::{Room, run_session};
use ct_disk::Disk;
use ct_link::{Sink, Source};
use ct_recover::open_store;
use std::alloc::Global;

/// Opens the store and runs one session.
pub(crate) fn exec<P: Disk, L: Disk, I: Source, O: Sink>(
    alloc: Global,
    pages: P,
    log: L,
    input: &mut I,
    out: &mut O,
) -> Ended<P, L>
    ensures status { result.status ≡ status_of result.cause }
    ensures kind { IsExecCause result.cause }
    ensures run { RanSession (telling L.tells L.faults L.content L.may_leave L.left_since) result.pages log result.log result.cause result.front
        (input_of I.taken I.left I.count I.faults input.old) (input_of I.taken I.left I.count I.faults input.new) (output_of O.written O.faults out.old) (output_of O.written O.faults out.new)
        ⊎ (RanNone result.cause result.front (input_of I.taken I.left I.count I.faults input.old) (input_of I.taken I.left I.count I.faults input.new) × Keeps (O.written out.old) (O.written out.new)
        × (IsTrue L.tells → IsRead L.content L.may_leave L.left_since log result.log)) }
    ensures pages { IsTrue P.tells → IsRead P.content P.may_leave P.left_since pages result.pages }
    // A store that was kept stays so: a stop at the end leaves a prefix of the run's history with each acknowledged transaction.
    ensures kept { IsTrue P.tells → IsTrue L.tells → KeepsStore (P.may_leave pages) (L.may_leave log) (P.may_leave result.pages) (L.may_leave result.log) }
    ensures undone { IsTrue L.tells → result.cause ≡ Cause.Undone → has_open_header (L.content log) ≡ false }
    ensures bad { IsTrue L.tells → (place : ℕ) → result.cause ≡ Cause.BadLog place → IsBad (log_bytes (L.content log)) place }
    ensures cause { HasRunCause result.cause (P.faults pages) (P.faults result.pages) (L.faults log) (L.faults result.log) (I.faults input.old) (I.faults input.new) (O.faults out.old) (O.faults out.new) }
    ensures done { result.cause ≡ Cause.Done → IsOver (I.left input.new) (I.taken input.old) (I.taken input.new) × (I.count input.new ≤ I.count input.old + 2 ^ 40) }
    ensures long { result.cause ≡ Cause.Long → I.count input.old + 2 ^ 40 < I.count input.new }
{
    let Ok(room) = Room::new(alloc) else {
        return Ended::by(Cause::Memory, pages, log, 0);
    };
    match open_store(alloc, pages, log) {
        Ok(yard) => run_session(alloc, yard, room, input, out),
        Err((fault, pages, log)) => Ended::by(open_cause(fault), pages, log, 0),
    }
}
