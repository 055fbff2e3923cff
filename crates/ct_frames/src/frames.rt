//! Frames over a device of pages.

ghost use Rattle.std.specs.Prelude.{◌≡◌, ◌≤◌, ◌<◌, ◌^◌, ◌++◌, [], ◌∷◌, ℕ, List, All, map, Some, None, IsSome, IsTrue, IfErr, OnOk, OnErr, IsErrOf, MatchOption, replicate};
ghost use Rattle.ct_disk.specs.Disk.{GoesOn, Only, unchanged, raised, Rose};
ghost use Rattle.ct_frames.specs.Fetches.{Fetches, CallsFor};
ghost use Rattle.ct_frames.specs.Pages.{PageImage, IsPageRead, ArePages, PlacesAll, ReplaysAll, an_image, image_of, page_at, page_in};
ghost use Rattle.ct_frames.specs.declared.table.FrameTable.{FrameTable};
ghost use Rattle.ct_frames.specs.Tables.{frame_at, dirty_at, bytes_at, SameFrames, Puts, IsLeast, IsClean, after_image, blank};

use crate::fault::{Fetched, FrameFault};
use crate::image::Image;
use crate::read::read_page;
use crate::table::FrameTable;
use ct_disk::Disk;
use ct_page::{PAGE_SIZE, has_header};
use std::alloc::Global;

/// The pages of a device that are in memory. Each page that was fetched is kept.
///
/// Page p stands at place 4096 p of the device. No call writes to the device.
#[derive(Drop)]
pub struct Frames<P: Disk> {
    pub device: P,
    pub table: FrameTable,
}

impl<P: Disk> Frames<P> {
    /// Frames over a device, with no page here yet.
    pub fn new(alloc: Global, pages: P) -> Frames<P>
        ensures device { result.device ≡ pages }
        ensures none { (page : ℕ) → frame_at page result.table ≡ None }
    {
        Frames {
            device: pages,
            table: FrameTable::new(alloc),
        }
    }

    /// Reads a page where it is not here. Bytes past the end of the device are zero.
    /// It makes one call of the device at most, and after an `Err` the frames are as they were.
    pub fn fetch(&mut self, page: u64) -> Result<Fetched, FrameFault>
        requires { page < 2 ^ 50 }
        ensures frames { Fetches result (IsPageRead P.tells (P.content self.old.device) (P.size self.old.device) page) page self.old.table self.new.table }
        ensures pages { IsTrue P.tells → (base : ℕ → List ℕ) (images : List PageImage) → page_in (P.content self.old.device) page ≡ page_at base images page
            → ArePages base images self.old.table → ArePages base images self.new.table }
        ensures calls { CallsFor result P.calls self.old.device self.new.device }
        ensures reads { CallsFor result P.reads self.old.device self.new.device }
        ensures content { IsTrue P.tells → P.content self.new.device ≡ P.content self.old.device }
        ensures crash { IsTrue P.tells → GoesOn P.may_leave P.left_since unchanged self.old.device self.new.device }
        ensures size { P.size self.new.device ≡ P.size self.old.device }
        ensures later { P.faults self.old.device ≤ P.faults self.new.device }
        ensures cause { IsErrOf result FrameFault.Fault → Rose (P.faults self.old.device) (P.faults self.new.device) }
    {
        if self.table.has(page) {
            return Ok(Fetched::Here);
        }
        let mut frame = self.table.blank()?;
        read_page(&mut self.device, page, &mut frame.bytes)?;
        if !has_header(&frame.bytes) {
            return Err(FrameFault::BadPage(page));
        }
        self.table.put(page, frame);
        Ok(Fetched::Moved)
    }

    /// Gives a page that was just allocated a frame of zeros, as the device has it, in place of any
    /// that is here. The only refusal is `Memory`. It makes no call of the device.
    pub fn blank(&mut self, page: u64) -> Result<(), FrameFault>
        requires { page < 2 ^ 50 }
        ensures ok { OnOk result (Puts page blank self.old.table self.new.table) }
        ensures pages { (base : ℕ → List ℕ) (images : List PageImage) → page_at base images page ≡ replicate 4096 0 → ArePages base images self.old.table
            → OnOk result (ArePages base images self.new.table) }
        ensures err { OnErr result (SameFrames self.old.table self.new.table) }
        ensures memory { IfErr result (λ fault. fault ≡ FrameFault.Memory) }
        ensures device { self.new.device ≡ self.old.device }
    {
        let zeros = self.table.blank()?;
        self.table.put(page, zeros);
        Ok(())
    }

    /// The bytes of a page that is here.
    pub fn page(&self, page: u64) -> &[u8; PAGE_SIZE]
        requires within { page < 2 ^ 50 }
        requires here { IsSome (frame_at page self.now.table) }
        ensures { bytes_at page self.now.table ≡ Some result.now }
    {
        self.table.page(page)
    }

    /// Changes a page that is here: these bytes, with the position in the header. It makes no call
    /// of the device.
    pub fn edit(&mut self, page: u64, bytes: &[u8; PAGE_SIZE], position: u64)
        requires within { page < 2 ^ 50 }
        requires here { IsSome (frame_at page self.old.table) }
        ensures frames { Puts page (after_image (dirty_at page self.old.table) bytes.now position) self.old.table self.new.table }
        ensures pages { (base : ℕ → List ℕ) (images : List PageImage) → ArePages base images self.old.table
            → ArePages base (images ++ an_image page bytes.now position ∷ []) self.new.table }
        ensures device { self.new.device ≡ self.old.device }
    {
        self.table.edit(page, bytes, position);
    }

    /// Places the image of a page with its position, whether the page is here or not. The only
    /// refusal is `Memory`. It makes no call of the device.
    pub fn replay(
        &mut self,
        page: u64,
        bytes: &[u8; PAGE_SIZE],
        position: u64,
    ) -> Result<(), FrameFault>
        requires { page < 2 ^ 50 }
        ensures ok { OnOk result (Puts page (after_image (dirty_at page self.old.table) bytes.now position) self.old.table self.new.table) }
        ensures placed { (from : FrameTable) (images : List PageImage) → PlacesAll images from self.old.table
            → OnOk result (PlacesAll (images ++ an_image page bytes.now position ∷ []) from self.new.table) }
        ensures pages { (base : ℕ → List ℕ) (images : List PageImage) → ArePages base images self.old.table
            → OnOk result (ArePages base (images ++ an_image page bytes.now position ∷ []) self.new.table) }
        ensures err { OnErr result (SameFrames self.old.table self.new.table) }
        ensures memory { IfErr result (λ fault. fault ≡ FrameFault.Memory) }
        ensures device { self.new.device ≡ self.old.device }
    {
        self.table.replay(page, bytes, position)?;
        Ok(())
    }

    /// Places images in their order. At `Memory`, the only refusal, a first part of them is placed.
    pub fn replay_all(&mut self, images: &[Image<'_>]) -> Result<(), FrameFault>
        requires { All (λ image. image.page < 2 ^ 50) images.now }
        ensures frames { ReplaysAll result (map image_of images.now) self.old.table self.new.table }
        ensures pages { (base : ℕ → List ℕ) (before : List PageImage) → ArePages base before self.old.table
            → OnOk result (ArePages base (before ++ map image_of images.now) self.new.table) }
        ensures memory { IfErr result (λ fault. fault ≡ FrameFault.Memory) }
        ensures device { self.new.device ≡ self.old.device }
    {
        for image in images {
            self.replay(image.page, image.bytes, image.position)?;
        }
        Ok(())
    }

    /// The least position of an image whose page is not written and synced since, or `None` where
    /// there is no such page.
    pub fn oldest(&self) -> Option<u64>
        ensures { MatchOption result (IsClean self.now.table) (IsLeast self.now.table) }
    {
        self.table.oldest()
    }

    /// Makes stable what was written to the device. The only refusal is `Fault`.
    pub fn sync(&mut self) -> Result<(), FrameFault>
        ensures frames { self.new.table ≡ self.old.table }
        ensures stable { IsTrue P.tells → OnOk result (Only (P.content self.old.device) (P.may_leave self.new.device)) }
        ensures content { IsTrue P.tells → P.content self.new.device ≡ P.content self.old.device }
        ensures crash { IsTrue P.tells → GoesOn P.may_leave P.left_since unchanged self.old.device self.new.device }
        ensures size { P.size self.new.device ≡ P.size self.old.device }
        ensures reads { P.reads self.new.device ≡ P.reads self.old.device }
        ensures calls { P.calls self.new.device ≡ raised (P.calls self.old.device) }
        ensures later { P.faults self.old.device ≤ P.faults self.new.device }
        ensures fault { IfErr result (λ fault. fault ≡ FrameFault.Fault) }
        ensures cause { OnErr result (Rose (P.faults self.old.device) (P.faults self.new.device)) }
    {
        self.device.sync()?;
        Ok(())
    }

    /// Gives the device back. What was not written is lost.
    pub fn into_device(self) -> P
        ensures { result ≡ self.device }
    {
        let Frames { device, table: _ } = self;
        device
    }
}
