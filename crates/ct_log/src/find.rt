//! Reading a log by windows: many chunks by one call of the device.

ghost use Rattle.std.specs.Prelude.{◌≡◌, ◌≤◌, ◌<◌, ◌+◌, ◌-◌, ◌^◌, ℕ, min, ◌++◌, IsTrue, OnOk, IfOk, IfSome, IsErrOf, length, take, drop};
ghost use Rattle.ct_disk.specs.Disk.{CountsFault, Rose};
ghost use Rattle.ct_log.specs.Chunks.{BeginsWithChunk};
ghost use Rattle.ct_log.specs.Front.{zeros};
ghost use Rattle.ct_log.specs.Reading.{IsRead, IsWindow, Covers, Tells, found_in, groups_in, log_bytes, seen_from};

use crate::places::FRAME;
use crate::read::{LogFault, groups_len, has_open_gate, log_end, read_over};
use crate::window::{Part, Window};
use ct_disk::{Disk, DiskFault};
use ct_items::Items;
use std::alloc::Global;
use std::mem;

/// How many bytes are read at once, where a chunk does not need more.
const SPAN: u64 = 1 << 16;

impl Window {
    /// The groups of a chunk that stands in the window.
    pub fn groups(&self, part: Part) -> &[u8]
        requires { part.from + part.len ≤ length self.now.bytes }
        ensures { result.now ≡ groups_in self.now part }
    {
        let bytes = self.bytes.as_slice();
        &bytes[part.from..part.from + part.len]
    }

    /// The bytes from a place on.
    fn seen_from(&self, place: u64) -> &[u8]
        requires from { self.now.place ≤ place }
        requires within { place ≤ self.now.place + length self.now.bytes }
        ensures { result.now ≡ seen_from self.now place }
    {
        let bytes = self.bytes.as_slice();
        let from = (place - self.place) as usize;
        &bytes[from..]
    }

    /// Whether it has the bytes from one place up to another.
    fn covers(&self, place: u64, to: u64) -> bool
        ensures { IsTrue result → Covers self.now place to }
    {
        let end = self.place + self.bytes.as_slice().len() as u64;
        self.place <= place && to <= end
    }

    /// Lets it have the bytes from one place up to another, reading where it has not.
    fn cover<L: Disk>(&mut self, device: &mut L, place: u64, to: u64) -> Result<(), LogFault>
        requires order { place ≤ to }
        requires within { to ≤ self.old.end }
        requires window { IsWindow L.tells L.content L.size device.old self.old }
        ensures covered { OnOk result (Covers self.new place to) }
        ensures end { self.new.end ≡ self.old.end }
        ensures window { IsWindow L.tells L.content L.size device.new self.new }
        ensures read { IsTrue L.tells → IsRead L.content L.may_leave L.left_since device.old device.new }
        ensures size { L.size device.new ≡ L.size device.old }
        ensures reads { L.reads device.new ≤ L.reads device.old + 1 }
        ensures good { (at : ℕ) → ¬ (IsErrOf result (LogFault.Bad at)) }
        ensures later { L.faults device.old ≤ L.faults device.new }
        ensures cause { IsErrOf result LogFault.Fault → Rose (L.faults device.old) (L.faults device.new) }
    {
        if self.covers(place, to) {
            return Ok(());
        }
        let len = (to - place).max(SPAN).min(self.end - place);
        self.fill(device, place, len)
    }

    /// Reads bytes of the log in place of those that it has, whose memory they take over.
    fn fill<L: Disk>(&mut self, device: &mut L, place: u64, len: u64) -> Result<(), LogFault>
        requires within { place + len ≤ self.old.end }
        requires window { IsWindow L.tells L.content L.size device.old self.old }
        ensures filled { OnOk result ((self.new.place ≡ place) × (length self.new.bytes ≡ len)) }
        ensures end { self.new.end ≡ self.old.end }
        ensures window { IsWindow L.tells L.content L.size device.new self.new }
        ensures read { IsTrue L.tells → IsRead L.content L.may_leave L.left_since device.old device.new }
        ensures size { L.size device.new ≡ L.size device.old }
        ensures reads { L.reads device.new ≤ L.reads device.old + 1 }
        ensures good { (at : ℕ) → ¬ (IsErrOf result (LogFault.Bad at)) }
        ensures later { L.faults device.old ≤ L.faults device.new }
        ensures cause { IsErrOf result LogFault.Fault → Rose (L.faults device.old) (L.faults device.new) }
    {
        let others = mem::replace(&mut self.bytes, Items::new(self.alloc));
        self.bytes = read_over(others, device, place, len as usize)?;
        self.place = place;
        Ok(())
    }

    /// A chunk's gate and the length of its groups, with zeros for the bytes that are missing.
    fn frame<L: Disk>(&mut self, device: &mut L, place: u64) -> Result<[u8; 5], LogFault>
        requires place { place ≤ 2 ^ 62 }
        requires window { IsWindow L.tells L.content L.size device.old self.old }
        ensures frame { IsTrue L.tells → IfOk result (λ frame. frame ≡ take 5 (drop place (log_bytes (L.content device.old)) ++ zeros 5)) }
        ensures end { self.new.end ≡ self.old.end }
        ensures window { IsWindow L.tells L.content L.size device.new self.new }
        ensures read { IsTrue L.tells → IsRead L.content L.may_leave L.left_since device.old device.new }
        ensures size { L.size device.new ≡ L.size device.old }
        ensures reads { L.reads device.new ≤ L.reads device.old + 1 }
        ensures good { (at : ℕ) → ¬ (IsErrOf result (LogFault.Bad at)) }
        ensures later { L.faults device.old ≤ L.faults device.new }
        ensures cause { IsErrOf result LogFault.Fault → Rose (L.faults device.old) (L.faults device.new) }
    {
        if self.end <= place {
            return Ok([0; 5]);
        }
        let to = (place + FRAME).min(self.end);
        self.cover(device, place, to)?;
        Ok(frame_of(self.seen_from(place)))
    }
}

/// The first five bytes, with zeros for those that are missing.
fn frame_of(bytes: &[u8]) -> [u8; 5]
    ensures { result ≡ take 5 (bytes.now ++ zeros 5) }
{
    if 5 <= bytes.len() {
        return [bytes[0], bytes[1], bytes[2], bytes[3], bytes[4]];
    }
    let mut frame = [0; 5];
    let most = bytes.len().min(5);
    frame[..most].copy_from_slice(&bytes[..most]);
    frame
}

/// A window in which nothing is read yet. It asks the device for its end, and holds for as long as nothing
/// is written there.
pub(crate) fn open_window<L: Disk>(alloc: Global, device: &mut L) -> Result<Window, DiskFault>
    ensures window { IfOk result (λ window. IsWindow L.tells L.content L.size device.new window) }
    ensures read { IsTrue L.tells → IsRead L.content L.may_leave L.left_since device.old device.new }
    ensures size { L.size device.new ≡ L.size device.old }
    ensures reads { L.reads device.new ≡ L.reads device.old }
    ensures cause { CountsFault (L.faults device.old) (L.faults device.new) result }
{
    let end = log_end(device)?;
    Ok(Window {
        alloc,
        bytes: Items::new(alloc),
        place: 0,
        end,
    })
}

/// Finds the chunk at a place, by a window that then has its groups. `None` is a closed gate or the device's
/// end, `Bad` a chunk that goes on past the end.
///
/// The window is filled from the place on where the chunk is not whole in it; a chunk that is longer than
/// 64 KiB is then alone in it.
pub(crate) fn find_chunk<L: Disk>(
    device: &mut L,
    window: &mut Window,
    place: u64,
) -> Result<Option<Part>, LogFault>
    requires place { place ≤ 2 ^ 62 }
    requires window { IsWindow L.tells L.content L.size device.old window.old }
    ensures found { IsTrue L.tells → Tells result window.new place (found_in (drop place (log_bytes (L.content device.old)))) }
    ensures next { IfOk result (λ found. IfSome found (λ part. (place + 5 ≤ part.next) × (part.next ≤ 2 ^ 62))) }
    ensures held { IfOk result (λ found. IfSome found (λ part. part.from + part.len ≤ length window.new.bytes)) }
    ensures bytes { IsTrue L.tells → IfOk result (λ found. IfSome found (λ part. BeginsWithChunk (groups_in window.new part) (drop place (log_bytes (L.content device.old))))) }
    ensures window { IsWindow L.tells L.content L.size device.new window.new }
    ensures read { IsTrue L.tells → IsRead L.content L.may_leave L.left_since device.old device.new }
    ensures size { L.size device.new ≡ L.size device.old }
    ensures reads { L.reads device.new ≤ L.reads device.old + 2 }
    ensures later { L.faults device.old ≤ L.faults device.new }
    ensures cause { IsErrOf result LogFault.Fault → Rose (L.faults device.old) (L.faults device.new) }
{
    let frame = window.frame(device, place)?;
    if !has_open_gate(&frame) {
        return Ok(None);
    }
    let len = groups_len(&frame);
    let next = place + FRAME + u64::from(len);
    if window.end < next {
        return Err(LogFault::Bad { at: place });
    }
    window.cover(device, place, next)?;
    let from = (place + FRAME - window.place) as usize;
    Ok(Some(Part {
        from,
        len: len as usize,
        next,
    }))
}
