//! Opens a store again: its state is made anew from the transactions of its log.

ghost use Rattle.std.specs.Prelude.{◌≡◌, ◌≤◌, true, false, None, List, ℕ, IsTrue, IfOk, IfErr, MatchResult, Ok};
ghost use Rattle.ct_definitions.specs.Histories.{History};
ghost use Rattle.ct_disk.specs.Disk.{Only};
ghost use Rattle.ct_log.specs.Flow.{IsAtRest};
ghost use Rattle.ct_log.specs.Heads.{has_open_header, head_in, is_start};
ghost use Rattle.ct_log.specs.Reading.{IsRead, log_bytes};
ghost use Rattle.ct_log.specs.declared.head.Head.{Head};
ghost use Rattle.ct_yard.specs.Kept.{Founds};
ghost use Rattle.ct_yard.specs.LogTexts.{HasTransactions};
ghost use Rattle.ct_yard.specs.Yards.{IsSettled};
ghost use Rattle.ct_yard.specs.Telling.{telling};
ghost use Rattle.ct_recover.specs.Opened.{AnswersLog};
ghost use Rattle.ct_recover.specs.Opening.{IsBad, Opens, OpensAs, HasOpenCause};

use crate::fault::{OpenFault, fault_of};
use crate::replay::{Replay, replay_log};
use ct_disk::Disk;
use ct_log::{Head, Log};
use ct_model::State;
use ct_yard::Yard;
use std::alloc::Global;

/// Opens the store on two devices, which it syncs first and hands back with a refusal. Nothing is written or cut.
/// `Undone` comes exactly where the gate of the log's header is not open, `BadLog` at the first place where the
/// log is damaged.
///
/// One window on the log, which is 64 KiB or one longer chunk, the changes of one transaction, in the room of the
/// longest list so far, and the state are in memory at a time.
pub fn open_store<P: Disk, L: Disk>(
    alloc: Global,
    mut pages: P,
    mut log: L,
) -> Result<Yard<P, L>, (OpenFault, P, L)>
    ensures opened { IfOk result (λ yard. Opens (telling L.tells L.faults L.content L.may_leave L.left_since) log yard) }
    ensures open { IsTrue L.tells → IfOk result (λ yard. has_open_header (L.content log) ≡ true) }
    ensures undone { IsTrue L.tells → IfErr result (λ refusal. refusal.0 ≡ OpenFault.Undone → has_open_header (L.content log) ≡ false) }
    ensures bad { IsTrue L.tells → IfErr result (λ refusal. (place : ℕ) → refusal.0 ≡ OpenFault.BadLog place → IsBad (log_bytes (L.content log)) place) }
    ensures empty { IfErr result (λ refusal. refusal.0 ≡ OpenFault.NotEmpty → ⊥) }

    // A store that holds a history is opened with it.
    ensures kept { IsTrue L.tells → (head : Head) (front : List ℕ) (history : History) → Founds head front history
        → HasTransactions front history.transactions (L.content log) → OpensAs (telling L.tells L.faults L.content L.may_leave L.left_since) front history result }
    ensures settled { IfOk result (λ yard. IsSettled yard) }
    ensures running { IfOk result (λ yard. yard.halt ≡ None) }

    // What a crash may leave of the devices stays, and after a sync it is what a read gives.
    ensures pages { IsTrue P.tells → MatchResult result (λ yard. IsRead P.content P.may_leave P.left_since pages yard.pages) (λ refusal. IsRead P.content P.may_leave P.left_since pages refusal.1) }
    ensures log { IsTrue L.tells → MatchResult result (λ yard. IsRead L.content L.may_leave L.left_since log yard.log.device) (λ refusal. IsRead L.content L.may_leave L.left_since log refusal.2) }
    ensures pages_stable { IsTrue P.tells → IfOk result (λ yard. Only (P.content pages) (P.may_leave yard.pages)) }
    ensures log_stable { IsTrue L.tells → IfOk result (λ yard. Only (L.content log) (L.may_leave yard.log.device)) }
    ensures later { MatchResult result (λ yard. (P.faults pages ≤ P.faults yard.pages) × (L.faults log ≤ L.faults yard.log.device)) (λ refusal. (P.faults pages ≤ P.faults refusal.1) × (L.faults log ≤ L.faults refusal.2)) }
    ensures cause { IfErr result (λ refusal. HasOpenCause refusal.0 (P.faults pages) (P.faults refusal.1) (L.faults log) (L.faults refusal.2)) }
{
    if pages.sync().is_err() {
        return Err((OpenFault::Device, pages, log));
    }
    if log.sync().is_err() {
        return Err((OpenFault::Device, pages, log));
    }
    match open_log(alloc, log) {
        Ok(Opened { log, state, number }) => Ok(Yard::assemble(pages, state, log, number)),
        Err((fault, log)) => Err((fault, pages, log)),
    }
}

/// A log that was read to its end.
struct Opened<L: Disk> {
    log: Log<L>,
    /// The state after its last transaction.
    state: State,
    /// The number of its last transaction.
    number: u64,
}

/// Opens the log on a device and reads it. A refusal hands the device back.
fn open_log<L: Disk>(alloc: Global, device: L) -> Result<Opened<L>, (OpenFault, L)>
    ensures { AnswersLog (telling L.tells L.faults L.content L.may_leave L.left_since) device result }
{
    match Log::open(alloc, device) {
        Ok((log, head)) => read_log(alloc, log, &head),
        Err((fault, device)) => Err((fault_of(fault), device)),
    }
}

/// Reads a log to its end from where its head says. A refusal hands its device back.
fn read_log<L: Disk>(
    alloc: Global,
    mut log: Log<L>,
    head: &Head,
) -> Result<Opened<L>, (OpenFault, L)>
    requires rest { IsAtRest log.flow }
    requires start { IsTrue (is_start head.now.start) }
    ensures { (IsTrue L.tells → head_in (L.content log.device) ≡ Ok head.now) → AnswersLog (telling L.tells L.faults L.content L.may_leave L.left_since) log.device result }
{
    if !head.gate {
        return Err((OpenFault::Undone, log.into_device()));
    }
    let mut replay = Replay::from_start(alloc, &head.start);
    match replay_log(alloc, &mut log, &mut replay) {
        Ok(()) => {
            log.set_end(replay.place, replay.ordinal);
            Ok(Opened {
                log,
                state: replay.state,
                number: replay.number,
            })
        }
        Err(fault) => Err((fault, log.into_device())),
    }
}
