//! A log: a device and what is known of it in memory.

ghost use Rattle.std.specs.Prelude.{◌≡◌, ◌↔◌, ◌<◌, ◌≤◌, ◌+◌, ◌^◌, ◌++◌, [], ◌∷◌, List, ℕ, length, take, drop, IsTrue, OnOk, OnErr, IfOk, IfErr, IfSome, IsErrOf, MatchResult, Ok, Err};
ghost use Rattle.ct_disk.specs.Disk.{CountsFault, Only, Rose};
ghost use Rattle.ct_log.specs.Chunks.{BeginsWithChunk, EndsAfter};
ghost use Rattle.ct_log.specs.Flow.{has_room, IsAtRest, SameFlow, Queued};
ghost use Rattle.ct_log.specs.Front.{is_id, front};
ghost use Rattle.ct_log.specs.Heads.{TellsHead, head_in, is_start};
ghost use Rattle.ct_log.specs.Reading.{IsRead, IsWindow, Tells, found_in, groups_in, log_bytes};
ghost use Rattle.ct_log.specs.Log.{IsLog, durable_text};

use crate::find::{find_chunk, open_window};
use crate::flow::Flow;
use crate::head::{Head, read_head};
use crate::places::FIRST_CHUNK;
use crate::read::LogFault;
use crate::stage::Stage;
use crate::window::{Part, Window};
use ct_disk::{Disk, DiskFault};
use ct_items::NoMemory;
use std::alloc::Global;

/// A log on a device.
#[derive(Drop)]
pub struct Log<L: Disk> {
    pub device: L,
    pub flow: Flow,
}

impl<L: Disk> Log<L> {
    /// A log that was made and opened, and in which there is no chunk yet.
    pub fn begin(alloc: Global, device: L) -> Log<L>
        ensures device { result.device ≡ device }
        ensures end { result.flow.end ≡ 12288 }
        ensures stage { result.flow.stage ≡ Stage.Idle }
        ensures waiting { result.flow.waiting ≡ [] }
        ensures taken { result.flow.taken ≡ [] }
        ensures durable { result.flow.durable ≡ 0 }
        ensures next { result.flow.next ≡ 1 }
        ensures log { IsTrue L.tells → (id : List ℕ) (base : ℕ) → IsTrue (is_id id) → L.content device ≡ front id base ++ 0 ∷ []
            → Only (L.content device) (L.may_leave device)
            → IsLog L.content L.may_leave result × (durable_text L.content result ≡ front id base) }
    {
        Log {
            device,
            flow: Flow::at_rest(alloc, FIRST_CHUNK, 1),
        }
    }

    /// A log that is to be read from where its head says. Where it ends is told by `set_end`, once it is read.
    /// A refusal hands the device back.
    pub fn open(alloc: Global, mut device: L) -> Result<(Log<L>, Head), (LogFault, L)>
        ensures head { IsTrue L.tells → IfOk result (λ opened. head_in (L.content device) ≡ Ok opened.1) }
        ensures bad { IsTrue L.tells → IfErr result (λ refused. TellsHead (Err refused.0) (head_in (L.content device))) }
        ensures end { IfOk result (λ opened. (opened.0.flow.end ≡ opened.1.start.place) × (opened.0.flow.next ≡ opened.1.start.ordinal)) }
        ensures rest { IfOk result (λ opened. IsAtRest opened.0.flow) }
        ensures start { IfOk result (λ opened. IsTrue (is_start opened.1.start)) }
        ensures read { IsTrue L.tells → MatchResult result (λ opened. IsRead L.content L.may_leave L.left_since device opened.0.device)
            (λ refused. IsRead L.content L.may_leave L.left_since device refused.1) }
        ensures later { MatchResult result (λ opened. L.faults device ≤ L.faults opened.0.device) (λ refused. L.faults device ≤ L.faults refused.1) }
        ensures cause { IfErr result (λ refused. refused.0 ≡ LogFault.Fault → Rose (L.faults device) (L.faults refused.1)) }
    {
        match read_head(alloc, &mut device) {
            Ok(head) => {
                let flow = Flow::at_rest(alloc, head.start.place, head.start.ordinal);
                Ok((Log { device, flow }, head))
            }
            Err(fault) => Err((fault, device)),
        }
    }

    /// A window on the log, in which nothing is read yet.
    pub fn window(&mut self, alloc: Global) -> Result<Window, DiskFault>
        ensures window { IfOk result (λ window. IsWindow L.tells L.content L.size self.new.device window) }
        ensures flow { SameFlow self.old.flow self.new.flow }
        ensures read { IsTrue L.tells → IsRead L.content L.may_leave L.left_since self.old.device self.new.device }
        ensures size { L.size self.new.device ≡ L.size self.old.device }
        ensures reads { L.reads self.new.device ≡ L.reads self.old.device }
        ensures cause { CountsFault (L.faults self.old.device) (L.faults self.new.device) result }
    {
        open_window(alloc, &mut self.device)
    }

    /// Finds the chunk at a place, by a window that then has its groups.
    pub fn find_from(&mut self, window: &mut Window, place: u64) -> Result<Option<Part>, LogFault>
        requires place { place ≤ 2 ^ 62 }
        requires window { IsWindow L.tells L.content L.size self.old.device window.old }
        ensures found { IsTrue L.tells → Tells result window.new place (found_in (drop place (log_bytes (L.content self.old.device)))) }
        ensures next { IfOk result (λ found. IfSome found (λ part. (place + 5 ≤ part.next) × (part.next ≤ 2 ^ 62))) }
        ensures held { IfOk result (λ found. IfSome found (λ part. part.from + part.len ≤ length window.new.bytes)) }
        ensures bytes { IsTrue L.tells → IfOk result (λ found. IfSome found (λ part. BeginsWithChunk (groups_in window.new part) (drop place (log_bytes (L.content self.old.device))))) }
        ensures window { IsWindow L.tells L.content L.size self.new.device window.new }
        ensures flow { SameFlow self.old.flow self.new.flow }
        ensures read { IsTrue L.tells → IsRead L.content L.may_leave L.left_since self.old.device self.new.device }
        ensures size { L.size self.new.device ≡ L.size self.old.device }
        ensures reads { L.reads self.new.device ≤ L.reads self.old.device + 2 }
        ensures later { L.faults self.old.device ≤ L.faults self.new.device }
        ensures cause { IsErrOf result LogFault.Fault → Rose (L.faults self.old.device) (L.faults self.new.device) }
    {
        find_chunk(&mut self.device, window, place)
    }

    /// Tells where the log ends: at the place of the first gate that is not open, and which ordinal comes next.
    pub fn set_end(&mut self, place: u64, ordinal: u64)
        requires rest { IsAtRest self.old.flow }
        requires place { place ≤ 2 ^ 62 }
        requires first { 0 < ordinal }
        requires last { ordinal ≤ 2 ^ 63 }
        ensures device { self.new.device ≡ self.old.device }
        ensures rest { IsAtRest self.new.flow }
        ensures end { self.new.flow.end ≡ place }
        ensures next { self.new.flow.next ≡ ordinal }
        ensures log { IsTrue L.tells → EndsAfter (take place (L.content self.old.device)) (L.content self.old.device)
            → Only (L.content self.old.device) (L.may_leave self.old.device) → IsLog L.content L.may_leave self.new }
    {
        self.flow = Flow::at_rest(self.flow.alloc, place, ordinal);
    }

    /// Whether a group of this many bytes may still be added.
    pub fn has_room(&self, len: usize) -> bool
        ensures { result ≡ has_room self.now.flow len }
    {
        self.flow.has_room(len)
    }

    /// Adds a group, which a later flush makes durable. Answers its ordinal.
    pub fn append(&mut self, group: &[u8]) -> Result<u64, NoMemory>
        requires some { 0 < length group.now }
        requires room { IsTrue (has_room self.old.flow (length group.now)) }
        ensures ordinal { IfOk result (λ ordinal. ordinal ≡ self.old.flow.next) }
        ensures ok { OnOk result (Queued group.now self.old.flow self.new.flow) }
        ensures err { OnErr result (SameFlow self.old.flow self.new.flow) }
        ensures device { self.new.device ≡ self.old.device }
        ensures log { IsTrue L.tells → IsLog L.content L.may_leave self.old → IsLog L.content L.may_leave self.new }
        ensures text { durable_text L.content self.new ≡ durable_text L.content self.old }
    {
        self.flow.queue(group)
    }

    /// Takes beforehand what the steps of a flush need in memory. Each `append` has done so, and
    /// nothing is left to take.
    pub fn ready(&mut self) -> Result<(), NoMemory>
        ensures flow { SameFlow self.old.flow self.new.flow }
        ensures device { self.new.device ≡ self.old.device }
        ensures log { IsTrue L.tells → IsLog L.content L.may_leave self.old → IsLog L.content L.may_leave self.new }
        ensures text { durable_text L.content self.new ≡ durable_text L.content self.old }
    {
        Ok(())
    }

    /// The ordinal of the last group that a crash leaves, or 0.
    pub fn durable(&self) -> u64
        ensures { result ≡ self.now.flow.durable }
    {
        self.flow.durable
    }

    /// The ordinal of the next group.
    pub fn next(&self) -> u64
        ensures { result ≡ self.now.flow.next }
    {
        self.flow.next
    }

    /// The place of the closed gate that ends the log.
    pub fn end(&self) -> u64
        ensures { result ≡ self.now.flow.end }
    {
        self.flow.end
    }

    /// Whether no flush is under way.
    pub fn is_idle(&self) -> bool
        ensures { IsTrue result ↔ (self.now.flow.stage ≡ Stage.Idle) }
    {
        matches!(self.flow.stage, Stage::Idle)
    }

    /// Whether each group is durable.
    pub fn is_flushed(&self) -> bool
        ensures { IsTrue result ↔ (self.now.flow.durable + 1 ≡ self.now.flow.next) }
    {
        self.flow.durable + 1 == self.flow.next
    }

    /// How many bytes of groups are not durable yet.
    pub fn unflushed_len(&self) -> u64
        ensures { result ≡ length self.now.flow.taken + length self.now.flow.waiting }
    {
        self.flow.taken.len() as u64 + self.flow.waiting.len() as u64
    }

    /// Gives the device back.
    pub fn into_device(self) -> L
        ensures { result ≡ self.device }
    {
        let Log { device, flow: _ } = self;
        device
    }
}
