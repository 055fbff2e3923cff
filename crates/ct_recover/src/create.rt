//! Makes an empty store: its page device, its log, and last the gate of the log's header.

ghost use Rattle.std.specs.Prelude.{◌≡◌, ◌⊎◌, ◌≤◌, ◌<◌, ◌+◌, ℕ, List, true, IsTrue, IsErr, OnOk, IfErr, Err};
ghost use Rattle.ct_disk.specs.Disk.{AllImages, Only, HasCause};
ghost use Rattle.ct_log.specs.Front.{is_id};
ghost use Rattle.ct_log.specs.Heads.{has_open_header};
ghost use Rattle.ct_log.specs.Reading.{IsRead};
ghost use Rattle.ct_yard.specs.Kept.{empty_directory};
ghost use Rattle.ct_yard.specs.Telling.{telling};
ghost use Rattle.ct_recover.specs.Creating.{empty_log, IsSyncedOnce, IsNoneOrMade, IsMakeFault, make_fault};
ghost use Rattle.ct_recover.specs.Opening.{HasOpenCause};

use crate::fault::OpenFault;
use ct_disk::{Disk, DiskError, DiskFault};
use ct_log::{has_open_header, make_log, open_gate, pad, write_behind};

/// The front of a directory page: its kind, and that it is of no file and no index.
const DIRECTORY: [u8; 6] = [1, 0, 255, 255, 255, 255];

/// A page's header has this many bytes. In a directory the number of pages follows.
const PAGE_HEADER: u64 = 128;

/// A page has this many bytes.
const PAGE: u64 = 4096;

/// Makes a store without files on two devices. `NotEmpty` comes exactly where the gate of the log's header is open,
/// and then nothing is changed. The page device is written first, then the log, and last the header's gate is opened.
///
/// From the end of the log's first sync on, which is its eighth call, a stop or a failed call leaves the gate closed
/// or the store whole; before that a crash may leave any bytes of the new header.
pub fn create_store<P: Disk, L: Disk>(
    pages: &mut P,
    log: &mut L,
    id: &[u8],
) -> Result<(), OpenFault>
    requires id { IsTrue (is_id id.now) }
    ensures kind { IfErr result (λ fault. IsMakeFault fault) }
    ensures not_empty { IsTrue L.tells → result ≡ Err OpenFault.NotEmpty → has_open_header (L.content log.old) ≡ true }
    ensures kept { IsTrue L.tells → has_open_header (L.content log.old) ≡ true → IsErr result × IsRead L.content L.may_leave L.left_since log.old log.new }
    ensures kept_pages { IsTrue L.tells → has_open_header (L.content log.old) ≡ true → pages.new ≡ pages.old }
    ensures pages { IsTrue P.tells → OnOk result (P.content pages.new ≡ empty_directory) }
    ensures pages_stable { IsTrue P.tells → OnOk result (Only (P.content pages.new) (P.may_leave pages.new)) }
    ensures log { IsTrue L.tells → OnOk result (L.content log.new ≡ empty_log id.now) }
    ensures log_stable { IsTrue L.tells → OnOk result (Only (L.content log.new) (L.may_leave log.new)) }

    // The log is only read until a crash leaves nothing but the directory on the page device.
    ensures order { IsTrue P.tells → IsTrue L.tells → AllImages (λ p. p ≡ empty_directory) (P.may_leave pages.new) ⊎ IsRead L.content L.may_leave L.left_since log.old log.new }
    // From the end of the log's first sync on, each image is closed or whole, and each pair of images is no store or the one that was made.
    ensures left { IsTrue L.tells → L.calls log.old + 8 < L.calls log.new → IsSyncedOnce (telling L.tells L.faults L.content L.may_leave L.left_since) id.now log.new }
    ensures pairs { IsTrue P.tells → IsTrue L.tells → L.calls log.old + 8 < L.calls log.new → (p l : List ℕ) → P.may_leave pages.new p → L.may_leave log.new l → IsNoneOrMade id.now p l }
    ensures later { (P.faults pages.old ≤ P.faults pages.new) × (L.faults log.old ≤ L.faults log.new) }
    ensures cause { IfErr result (λ fault. HasOpenCause fault (P.faults pages.old) (P.faults pages.new) (L.faults log.old) (L.faults log.new)) }
{
    match has_open_header(log) {
        Ok(false) => {}
        Ok(true) => return Err(OpenFault::NotEmpty),
        Err(DiskFault) => return Err(OpenFault::Device),
    }
    if let Err(error) = make_directory(pages) {
        return Err(make_fault(error));
    }
    match make_store_log(log, id) {
        Ok(()) => Ok(()),
        Err(error) => Err(make_fault(error)),
    }
}

/// Why a store was not made, where a device's call was refused.
fn make_fault(error: DiskError) -> OpenFault
    ensures { result ≡ make_fault error }
{
    match error {
        DiskError::Fault => OpenFault::Device,
        DiskError::Memory => OpenFault::Memory,
    }
}

/// Makes the directory of a store without files, and nothing else, on the page device.
fn make_directory<P: Disk>(pages: &mut P) -> Result<(), DiskError>
    ensures made { IsTrue P.tells → OnOk result (P.content pages.new ≡ empty_directory) }
    ensures stable { IsTrue P.tells → OnOk result (Only (P.content pages.new) (P.may_leave pages.new)) }
    ensures cause { HasCause (P.faults pages.old) (P.faults pages.new) result }
{
    pages.cut(0)?;
    write_behind(pages, 0, &DIRECTORY)?;
    pad(pages, PAGE_HEADER)?;
    write_behind(pages, PAGE_HEADER, &[1])?;
    pad(pages, PAGE)?;
    pages.sync()?;
    Ok(())
}

/// Makes the log of a store without transactions, and opens its header's gate last.
fn make_store_log<L: Disk>(log: &mut L, id: &[u8]) -> Result<(), DiskError>
    requires id { IsTrue (is_id id.now) }
    ensures made { IsTrue L.tells → OnOk result (L.content log.new ≡ empty_log id.now) }
    ensures stable { IsTrue L.tells → OnOk result (Only (L.content log.new) (L.may_leave log.new)) }
    ensures left { IsTrue L.tells → L.calls log.old + 7 < L.calls log.new → IsSyncedOnce (telling L.tells L.faults L.content L.may_leave L.left_since) id.now log.new }
    ensures cause { HasCause (L.faults log.old) (L.faults log.new) result }
{
    if let Err(error) = make_log(log, id, 0) {
        return Err(error);
    }
    open_gate(log)
}
