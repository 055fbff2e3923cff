//! `check`: the store opened, and what it holds counted.

ghost use Rattle.std.specs.Prelude.{◌≡◌, ◌⊎◌, ◌++◌, [], ℕ, false, IsTrue, IfOk, IfSome, length, sum_by, codes, decimal};
ghost use Rattle.std.specs.Io.KnownBytes.{Keeps};
ghost use Rattle.ct_log.specs.Heads.{has_open_header};
ghost use Rattle.ct_log.specs.Reading.{IsRead, log_bytes};
ghost use Rattle.ct_recover.specs.Opening.{IsBad};
ghost use Rattle.ct_tool.specs.Ends.{status_of};
ghost use Rattle.ct_tool.specs.Causes.{IsCheckCause, IsOpenCause, IsPutCause, HasPutCause, PutsOrKeeps, HasRunCause};
ghost use Rattle.ct_tool.specs.Runs.{Checked, check_line};
ghost use Rattle.ct_yard.specs.Telling.{telling};

use crate::ended::{Cause, Ended, open_cause, put_cause};
use ct_disk::Disk;
use ct_items::NoMemory;
use ct_link::{Sink, put_all};
use ct_model::File;
use ct_recover::open_store;
use ct_yard::Yard;
use itoa::Buffer;
use std::alloc::Global;

/// How many records the files have together, unless they are more than a number of 64 bits counts.
fn record_count(files: &[File]) -> Option<u64>
    ensures { IfSome result (λ count. count ≡ sum_by (λ file. length file.records) files.now) }
{
    let mut count = 0u64;
    for file in files {
        count = count.checked_add(file.records.as_slice().len() as u64)?;
    }
    Some(count)
}

/// The line that tells these three numbers.
fn line(alloc: Global, front: u64, files: u64, records: u64) -> Result<Vec<u8>, NoMemory>
    ensures { IfOk result (λ line. line.items ≡ codes "OK " ++ decimal front ++ codes " " ++ decimal files ++ codes " " ++ decimal records ++ codes "\n") }
{
    let mut line = Vec::from_slice(alloc, b"OK ")?;
    line.extend_from_slice(Buffer::new().format(front).as_bytes())?;
    line.extend_from_slice(b" ")?;
    line.extend_from_slice(Buffer::new().format(files).as_bytes())?;
    line.extend_from_slice(b" ")?;
    line.extend_from_slice(Buffer::new().format(records).as_bytes())?;
    line.extend_from_slice(b"\n")?;
    Ok(line)
}

/// Puts the line of a store.
fn put_counts<O: Sink>(alloc: Global, front: u64, files: &[File], out: &mut O) -> Cause
    ensures kind { IsPutCause result }
    ensures put { PutsOrKeeps result (O.written out.old) (O.written out.new) (check_line front files.now) }
    ensures cause { HasPutCause result (O.faults out.old) (O.faults out.new) }
{
    let Some(records) = record_count(files) else {
        return Cause::Memory;
    };
    let Ok(line) = line(alloc, front, files.len() as u64, records) else {
        return Cause::Memory;
    };
    put_cause(put_all(out, line.as_slice()))
}

/// Opens the store and puts the number of its last transaction, and how many files and records it has.
pub(crate) fn check<P: Disk, L: Disk, O: Sink>(
    alloc: Global,
    pages: P,
    log: L,
    out: &mut O,
) -> Ended<P, L>
    ensures status { result.status ≡ status_of result.cause }
    ensures kind { IsCheckCause result.cause }
    ensures run { Checked (telling L.tells L.faults L.content L.may_leave L.left_since) result.pages log result.log result.cause result.front (O.written out.old) (O.written out.new)
        ⊎ (IsOpenCause result.cause × (result.front ≡ 0) × Keeps (O.written out.old) (O.written out.new)) }
    ensures pages { IsTrue P.tells → IsRead P.content P.may_leave P.left_since pages result.pages }
    ensures log { IsTrue L.tells → IsRead L.content L.may_leave L.left_since log result.log }
    ensures undone { IsTrue L.tells → result.cause ≡ Cause.Undone → has_open_header (L.content log) ≡ false }
    ensures bad { IsTrue L.tells → (place : ℕ) → result.cause ≡ Cause.BadLog place → IsBad (log_bytes (L.content log)) place }
    ensures cause { HasRunCause result.cause (P.faults pages) (P.faults result.pages) (L.faults log) (L.faults result.log) 0 0 (O.faults out.old) (O.faults out.new) }
{
    match open_store(alloc, pages, log) {
        Ok(yard) => tell(alloc, yard, out),
        Err((fault, pages, log)) => Ended::by(open_cause(fault), pages, log, 0),
    }
}

/// Tells what an opened store holds.
fn tell<P: Disk, L: Disk, O: Sink>(alloc: Global, yard: Yard<P, L>, out: &mut O) -> Ended<P, L>
    ensures status { result.status ≡ status_of result.cause }
    ensures kind { IsPutCause result.cause }
    ensures pages { result.pages ≡ yard.pages }
    ensures log { result.log ≡ yard.log.device }
    ensures front { result.front ≡ yard.front }
    ensures put { PutsOrKeeps result.cause (O.written out.old) (O.written out.new) (check_line yard.front yard.state) }
    ensures cause { HasPutCause result.cause (O.faults out.old) (O.faults out.new) }
{
    let Yard {
        pages,
        state,
        log,
        front,
        halt: _,
    } = yard;
    let cause = put_counts(alloc, front, state.files(), out);
    Ended::by(cause, pages, log.into_device(), front)
}
