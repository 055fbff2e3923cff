//! `create`: an empty store made on the devices.

ghost use Rattle.std.specs.Prelude.{◌≡◌, ◌≢◌, ◌⊎◌, ◌<◌, ◌+◌, ℕ, List, true, IsTrue, codes, Ok};
ghost use Rattle.std.specs.Io.KnownBytes.{Keeps};
ghost use Rattle.ct_disk.specs.Disk.{AllImages, Only};
ghost use Rattle.ct_log.specs.Front.{is_id};
ghost use Rattle.ct_log.specs.Heads.{has_open_header};
ghost use Rattle.ct_log.specs.Reading.{IsRead};
ghost use Rattle.ct_yard.specs.Kept.{empty_directory};
ghost use Rattle.ct_yard.specs.Telling.{telling};
ghost use Rattle.ct_recover.specs.Creating.{empty_log, IsSyncedOnce, IsNoneOrMade};
ghost use Rattle.ct_tool.specs.Ends.{status_of};
ghost use Rattle.ct_tool.specs.Causes.{IsCreateCause, MadeBy, PutsOrKeeps, HasRunCause};
ghost use Rattle.ct_tool.specs.Runs.{IsMade};

use crate::ended::{Cause, Ended, open_cause, put_cause};
use ct_disk::Disk;
use ct_link::{Sink, put_all};
use ct_recover::create_store;

/// Makes an empty store with this id, and puts `OK 0`.
pub(crate) fn create<P: Disk, L: Disk, O: Sink>(
    mut pages: P,
    mut log: L,
    id: &[u8],
    out: &mut O,
) -> Ended<P, L>
    requires id { IsTrue (is_id id.now) }
    ensures status { result.status ≡ status_of result.cause }
    ensures kind { IsCreateCause result.cause }
    ensures front { result.front ≡ 0 }
    ensures not_empty { IsTrue L.tells → result.cause ≡ Cause.NotEmpty → has_open_header (L.content log) ≡ true }
    ensures kept { IsTrue L.tells → has_open_header (L.content log) ≡ true → (result.cause ≢ Cause.Done) × (result.cause ≢ Cause.Sink) × (result.pages ≡ pages) × IsRead L.content L.may_leave L.left_since log result.log }
    ensures made { MadeBy result.cause → IsMade (telling P.tells P.faults P.content P.may_leave P.left_since) (telling L.tells L.faults L.content L.may_leave L.left_since) id.now result.pages result.log }
    ensures order { IsTrue P.tells → IsTrue L.tells → AllImages (λ p. p ≡ empty_directory) (P.may_leave result.pages) ⊎ IsRead L.content L.may_leave L.left_since log result.log }
    ensures left { IsTrue L.tells → L.calls log + 8 < L.calls result.log → IsSyncedOnce (telling L.tells L.faults L.content L.may_leave L.left_since) id.now result.log }
    ensures pairs { IsTrue P.tells → IsTrue L.tells → L.calls log + 8 < L.calls result.log → (p l : List ℕ) → P.may_leave result.pages p → L.may_leave result.log l → IsNoneOrMade id.now p l }
    ensures put { PutsOrKeeps result.cause (O.written out.old) (O.written out.new) (codes "OK 0\n") }
    ensures cause { HasRunCause result.cause (P.faults pages) (P.faults result.pages) (L.faults log) (L.faults result.log) 0 0 (O.faults out.old) (O.faults out.new) }
{
    if let Err(fault) = create_store(&mut pages, &mut log, id) {
        return Ended::by(open_cause(fault), pages, log, 0);
    }
    let put = put_all(out, b"OK 0\n");
    Ended::by(put_cause(put), pages, log, 0)
}
