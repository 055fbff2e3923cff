//! The head of a log: its header and its two start cells, which tell where reading starts.

ghost use Rattle.std.specs.Prelude.{◌≡◌, ◌<◌, ◌≤◌, ◌+◌, ℕ, length, IsTrue, IsErrOf, IfOk, IfSome};
ghost use Rattle.ct_disk.specs.Disk.{CountsFault, Rose};
ghost use Rattle.ct_log.specs.Heads.{TellsHead, TellsCell, head_in, has_open_header, is_header, is_start, page_at, closed_head, open_head};
ghost use Rattle.ct_log.specs.Reading.{IsRead};

use crate::pages;
use crate::places::{FIRST_CELL, HEADER_GATE, OPEN, PAGE, SECOND_CELL};
use crate::read::LogFault;
use ct_disk::{Disk, DiskFault};
use ct_items::{Items, NoMemory};
use std::alloc::Global;

/// Where a log is read from.
#[derive(Clone, Copy, Debug, PartialEq, Eq)]
pub struct Start {
    /// The number of the start cell, or 0 where no cell is open.
    pub sequence: u64,
    /// The place of the first chunk that is read.
    pub place: u64,
    /// The ordinal of its first group.
    pub ordinal: u64,
    /// The number of the last transaction before it.
    pub last: u64,
}

/// The head of a log. Where the gate of the header is not open, the rest tells nothing.
#[derive(Drop)]
pub struct Head {
    /// The id of the store, 1 to 16 bytes, none of them zero.
    pub id: Items<u8>,
    /// The number of the last transaction before the log.
    pub base: u64,
    /// Whether the gate of the header is open.
    pub gate: bool,
    pub start: Start,
}

/// Whether the gate of the header is open.
pub fn has_open_header<L: Disk>(device: &mut L) -> Result<bool, DiskFault>
    ensures open { IsTrue L.tells → IfOk result (λ is_open. is_open ≡ has_open_header (L.content device.old)) }
    ensures read { IsTrue L.tells → IsRead L.content L.may_leave L.left_since device.old device.new }
    ensures calls { L.calls device.new ≤ L.calls device.old + 1 }
    ensures size { L.size device.new ≡ L.size device.old }
    ensures cause { CountsFault (L.faults device.old) (L.faults device.new) result }
{
    let mut gate = [0];
    let count = device.read(HEADER_GATE, &mut gate)?;
    Ok(count == 1 && gate[0] == OPEN)
}

/// Reads the head of a log. `Bad` is the place of a header that is none behind an open gate, or of a start
/// cell that is none.
pub fn read_head<L: Disk>(alloc: Global, device: &mut L) -> Result<Head, LogFault>
    ensures found { IsTrue L.tells → TellsHead result (head_in (L.content device.old)) }
    ensures start { IfOk result (λ head. IsTrue (is_start head.start)) }
    ensures read { IsTrue L.tells → IsRead L.content L.may_leave L.left_since device.old device.new }
    ensures size { L.size device.new ≡ L.size device.old }
    ensures reads { L.reads device.new ≤ L.reads device.old + 3 }
    ensures later { L.faults device.old ≤ L.faults device.new }
    ensures cause { IsErrOf result LogFault.Fault → Rose (L.faults device.old) (L.faults device.new) }
{
    let header = read_page(alloc, device, 0)?;
    if !pages::is_open(&header, HEADER_GATE as usize) {
        return Ok(closed_head(alloc));
    }
    if !pages::is_header(&header) {
        return Err(LogFault::Bad { at: 0 });
    }
    let first = read_cell(alloc, device, FIRST_CELL)?;
    let second = read_cell(alloc, device, SECOND_CELL)?;
    let head = open_head(alloc, &header, first, second)?;
    Ok(head)
}

/// The head of a log whose header's gate is not open.
fn closed_head(alloc: Global) -> Head
    ensures head { result ≡ closed_head }
    ensures start { IsTrue (is_start result.start) }
{
    Head {
        id: Items::new(alloc),
        base: 0,
        gate: false,
        start: pages::first_start(0),
    }
}

/// The head that a header with an open gate and the start cells tell.
fn open_head(
    alloc: Global,
    header: &[u8],
    first: Option<Start>,
    second: Option<Start>,
) -> Result<Head, NoMemory>
    requires long { 36 < length header.now }
    requires header { IsTrue (is_header header.now) }
    requires first { IfSome first (λ start. IsTrue (is_start start)) }
    requires second { IfSome second (λ start. IsTrue (is_start start)) }
    ensures head { IfOk result (λ head. head ≡ open_head header.now first second) }
    ensures start { IfOk result (λ head. IsTrue (is_start head.start)) }
{
    let base = pages::base_of(header);
    Ok(Head {
        id: Items::from_slice(alloc, pages::id_of(header))?,
        base,
        gate: true,
        start: pages::counting(base, first, second),
    })
}

/// Reads a start cell, which tells where reading starts if its gate is open.
fn read_cell<L: Disk>(alloc: Global, device: &mut L, place: u64) -> Result<Option<Start>, LogFault>
    requires { place ≤ 8192 }
    ensures found { IsTrue L.tells → TellsCell result place (page_at place (L.content device.old)) }
    ensures start { IfOk result (λ told. IfSome told (λ start. IsTrue (is_start start))) }
    ensures read { IsTrue L.tells → IsRead L.content L.may_leave L.left_since device.old device.new }
    ensures size { L.size device.new ≡ L.size device.old }
    ensures reads { L.reads device.new ≤ L.reads device.old + 1 }
    ensures later { L.faults device.old ≤ L.faults device.new }
    ensures cause { IsErrOf result LogFault.Fault → Rose (L.faults device.old) (L.faults device.new) }
{
    let page = read_page(alloc, device, place)?;
    if !pages::is_cell(&page) {
        return Err(LogFault::Bad { at: place });
    }
    Ok(pages::told_by(&page))
}

/// Reads a page, of which the device may have a part.
fn read_page<L: Disk>(alloc: Global, device: &mut L, place: u64) -> Result<Vec<u8>, LogFault>
    requires { place ≤ 8192 }
    ensures page { IsTrue L.tells → IfOk result (λ page. page.items ≡ page_at place (L.content device.old)) }
    ensures read { IsTrue L.tells → IsRead L.content L.may_leave L.left_since device.old device.new }
    ensures size { L.size device.new ≡ L.size device.old }
    ensures reads { L.reads device.new ≤ L.reads device.old + 1 }
    ensures good { (at : ℕ) → ¬ (IsErrOf result (LogFault.Bad at)) }
    ensures later { L.faults device.old ≤ L.faults device.new }
    ensures cause { IsErrOf result LogFault.Fault → Rose (L.faults device.old) (L.faults device.new) }
{
    let mut page = Vec::from_elem(alloc, 0, PAGE)?;
    let count = device.read(place, page.as_mut_slice())?;
    page.truncate(count);
    Ok(page)
}
