//! The frames by the number of their page.

ghost use Rattle.std.specs.Prelude.{◌≡◌, ◌<◌, ℕ, Some, None, IsSome, IfOk, OnOk, OnErr, is_some, MatchOption, min, nat_eq};
ghost use Rattle.std.specs.List.{reduce, filter_map};
ghost use Rattle.std.specs.HashMap.{spare, values, IsUnique};
ghost use Rattle.ct_frames.specs.Tables.{frame_at, dirty_at, bytes_at, SameFrames, Puts, IsLeast, IsClean, after_image, blank};

use crate::frame::Frame;
use ct_items::NoMemory;
use ct_page::PAGE_SIZE;
use std::alloc::Global;
use std::collections::HashMap;

/// A finite map from the number of a page to its frame.
#[derive(Drop)]
pub struct FrameTable {
    alloc: Global,
    frames: HashMap<u64, Box<Frame>>,
}

impl FrameTable {
    /// A table with no frame.
    pub(crate) fn new(alloc: Global) -> FrameTable
        ensures { (page : ℕ) → frame_at page result ≡ None }
    {
        FrameTable {
            alloc,
            frames: HashMap::new(alloc),
        }
    }

    /// Whether a page has a frame.
    pub(crate) fn has(&self, page: u64) -> bool
        ensures { result ≡ is_some (frame_at page self.now) }
    {
        self.frames.contains_key(&page)
    }

    /// The bytes of a page that has a frame.
    pub(crate) fn page(&self, page: u64) -> &[u8; PAGE_SIZE]
        requires { IsSome (frame_at page self.now) }
        ensures { bytes_at page self.now ≡ Some result.now }
    {
        match self.frames.get(&page) {
            Some(frame) => &frame.bytes,
            None => unreachable!(),
        }
    }

    /// Makes room for one more frame, and gives a frame of zeros for it.
    pub(crate) fn blank(&mut self) -> Result<Box<Frame>, NoMemory>
        ensures frame { IfOk result (λ frame. frame.value ≡ blank) }
        ensures room { OnOk result (0 < spare self.new.frames) }
        ensures same { SameFrames self.old self.new }
    {
        self.hold(Frame::blank())
    }

    /// Makes room for one more frame, and gives this one back on the heap.
    fn hold(&mut self, frame: Frame) -> Result<Box<Frame>, NoMemory>
        ensures frame { IfOk result (λ held. held.value ≡ frame) }
        ensures room { OnOk result (0 < spare self.new.frames) }
        ensures same { SameFrames self.old self.new }
    {
        self.frames.reserve(1)?;
        Ok(Box::new(self.alloc, frame)?)
    }

    /// Puts a frame for a page, where there is room for one more.
    pub(crate) fn put(&mut self, page: u64, frame: Box<Frame>)
        requires { 0 < spare self.old.frames }
        ensures { Puts page frame.value self.old self.new }
    {
        let _ = self.frames.insert(page, frame);
    }

    /// Puts an image over a page that has a frame.
    pub(crate) fn edit(&mut self, page: u64, bytes: &[u8; PAGE_SIZE], position: u64)
        requires { IsSome (frame_at page self.old) }
        ensures { Puts page (after_image (dirty_at page self.old) bytes.now position) self.old self.new }
    {
        match self.frames.get_mut(&page) {
            Some(frame) => frame.put_image(bytes, position),
            None => unreachable!(),
        }
    }

    /// Puts an image over a page, which gets a frame where it has none.
    pub(crate) fn replay(
        &mut self,
        page: u64,
        bytes: &[u8; PAGE_SIZE],
        position: u64,
    ) -> Result<(), NoMemory>
        ensures ok { OnOk result (Puts page (after_image (dirty_at page self.old) bytes.now position) self.old self.new) }
        ensures err { OnErr result (SameFrames self.old self.new) }
    {
        if self.has(page) {
            self.edit(page, bytes, position);
            return Ok(());
        }
        let frame = self.hold(Frame::of_image(bytes, position))?;
        self.put(page, frame);
        Ok(())
    }

    /// The least position of an image whose page is not written and synced since.
    pub(crate) fn oldest(&self) -> Option<u64>
        ensures { MatchOption result (IsClean self.now) (IsLeast self.now) }
    {
        least_dirty(&self.frames)
    }
}

/// The least position from which on a frame is dirty.
fn least_dirty(frames: &HashMap<u64, Box<Frame>>) -> Option<u64>
    ensures least { result ≡ reduce min (filter_map (λ frame. frame.value.dirty_since) (values frames.now)) }
    ensures unique { IsUnique nat_eq frames.now }
{
    frames.values().filter_map(|frame| frame.dirty_since).min()
}
