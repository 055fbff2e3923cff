//! The moves of the facts in memory, one for each step of a flush.

ghost use Rattle.std.specs.Prelude.{◌≡◌, ◌<◌, ◌≤◌, ◌+◌, ◌^◌, [], ◌++◌, length, IsTrue, IfOk, OnOk, OnErr};
ghost use Rattle.ct_log.specs.Chunks.{chunk_body, chunk_size, with_gate};
ghost use Rattle.ct_log.specs.Flow.{has_room, SameFlow, Queued, Took, MovedOn, Ended};

use crate::flow::Flow;
use crate::groups::Groups;
use crate::places::{CHUNK_LIMIT, LAST_END, LAST_NUMBER};
use crate::stage::Stage;
use ct_items::NoMemory;
use std::alloc::Global;

impl Flow {
    /// A log that ends at this place, with nothing under way.
    pub(crate) fn at_rest(alloc: Global, end: u64, next: u64) -> Flow
        requires place { end ≤ 2 ^ 62 }
        requires first { 0 < next }
        requires last { next ≤ 2 ^ 63 }
        ensures end { result.end ≡ end }
        ensures stage { result.stage ≡ Stage.Idle }
        ensures taken { result.taken ≡ [] }
        ensures waiting { result.waiting ≡ [] }
        ensures durable { result.durable + 1 ≡ next }
        ensures taken_up_to { result.taken_up_to + 1 ≡ next }
        ensures next { result.next ≡ next }
    {
        Flow {
            alloc,
            end,
            stage: Stage::Idle,
            taken: Groups::new(alloc),
            waiting: Groups::new(alloc),
            durable: next - 1,
            taken_up_to: next - 1,
            next,
        }
    }

    /// Whether a group of this many bytes may still be added.
    pub(crate) fn has_room(&self, len: usize) -> bool
        ensures { result ≡ has_room self.now len }
    {
        let len = len as u64;
        let waiting = self.waiting.len() as u64;
        let end = self.end + self.taken.size() as u64;
        len < CHUNK_LIMIT
            && waiting + len < CHUNK_LIMIT
            && end + 5 + waiting + len < LAST_END
            && self.next < LAST_NUMBER
    }

    /// Lets a group wait. Answers its ordinal.
    pub(crate) fn queue(&mut self, group: &[u8]) -> Result<u64, NoMemory>
        requires some { 0 < length group.now }
        requires room { IsTrue (has_room self.old (length group.now)) }
        ensures ok { OnOk result (Queued group.now self.old self.new) }
        ensures ordinal { IfOk result (λ ordinal. ordinal ≡ self.old.next) }
        ensures err { OnErr result (SameFlow self.old self.new) }
    {
        self.waiting.append(group)?;
        let ordinal = self.next;
        self.next += 1;
        Ok(ordinal)
    }

    /// The place of the closed gate that ends the log.
    pub(crate) fn end(&self) -> u64
        ensures place { result ≡ self.now.end }
        ensures within { self.now.end + with_gate (chunk_size self.now.taken + chunk_size self.now.waiting) ≤ 2 ^ 62 }
    {
        self.end
    }

    /// The body of a chunk of all groups that wait.
    pub(crate) fn body(&self) -> &[u8]
        requires { 0 < length self.now.waiting }
        ensures body { result.now ≡ chunk_body self.now.waiting }
        ensures within { self.now.end + 1 + length result.now ≤ 2 ^ 62 }
    {
        self.waiting.as_body()
    }

    /// Takes all groups that wait into the chunk under way, whose body is written.
    pub(crate) fn take(&mut self)
        requires stage { self.old.stage ≡ Stage.Idle }
        requires some { 0 < length self.old.waiting }
        ensures { Took self.old self.new }
    {
        self.taken = std::mem::replace(&mut self.waiting, Groups::new(self.alloc));
        self.taken_up_to = self.next - 1;
        self.stage = Stage::Written;
    }

    /// The body is stable.
    pub(crate) fn settle(&mut self)
        requires { self.old.stage ≡ Stage.Written }
        ensures { MovedOn Stage.Written Stage.Stable self.old self.new }
    {
        self.stage = Stage::Stable;
    }

    /// The gate is written.
    pub(crate) fn open(&mut self)
        requires { self.old.stage ≡ Stage.Stable }
        ensures { MovedOn Stage.Stable Stage.Opened self.old self.new }
    {
        self.stage = Stage::Opened;
    }

    /// The gate is stable.
    pub(crate) fn end_chunk(&mut self)
        requires { self.old.stage ≡ Stage.Opened }
        ensures { Ended self.old self.new }
    {
        self.end += self.taken.size() as u64;
        self.taken = Groups::new(self.alloc);
        self.durable = self.taken_up_to;
        self.stage = Stage::Idle;
    }
}
