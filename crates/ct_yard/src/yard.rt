//! The yard of one session, over the plain state.

ghost use Rattle.std.specs.Prelude.{◌≡◌, ◌≤◌, ◌<◌, ◌^◌, ◌+◌, ℕ, Bool, List, length, IsTrue, true, Some, None};
ghost use Rattle.ct_log.specs.Flow.{IsAtRest};
ghost use Rattle.ct_log.specs.Log.{IsLog, durable_text};
ghost use Rattle.ct_definitions.specs.Changes.{allows};
ghost use Rattle.ct_definitions.specs.Histories.{History, IsHistory, after, last_number};

use crate::entry::{group_of, single};
use crate::flushing::{flush, halt_cause};
use ct_definitions::{Change, Transaction};
use ct_disk::{Disk, HaltCause};
use ct_items::NoMemory;
use ct_log::Log;
use ct_model::{State, apply};
use std::alloc::Global;
use thiserror::Error;

/// The last number that a transaction can have.
const LAST_NUMBER: u64 = 1 << 63;

/// Why a commit was not done.
#[derive(Clone, Copy, Debug, PartialEq, Eq, Error)]
pub enum CommitFault {
    /// There was no memory for it, and nothing has changed.
    #[error("out of memory")]
    Memory,
    /// The store halted in it. The transaction is in the log whole or not at all.
    #[error("halted: {0}")]
    Halted(HaltCause),
}

impl From<NoMemory> for CommitFault {
    ghost use Rattle.std.specs.Prelude.{◌≡◌};
    ghost use Rattle.ct_yard.specs.declared.yard.CommitFault.TheVariants.{Memory};

    ghost from_gives = { λ _ fault. fault ≡ Memory };

    fn from(_refusal: NoMemory) -> CommitFault {
        CommitFault::Memory
    }
}

/// A store while it is used: its page device, the state after its history, its log, the number of its last
/// transaction, and the cause that halted it.
pub struct Yard<P: Disk, L: Disk> {
    pub pages: P,
    pub state: State,
    pub log: Log<L>,
    pub front: u64,
    pub halt: Option<HaltCause>,
}

impl<P: Disk, L: Disk> Yard<P, L> {
    ghost use Rattle.ct_yard.specs.Telling.{telling};
    ghost use Rattle.ct_yard.specs.LogTexts.{IsTextOf};
    ghost use Rattle.ct_yard.specs.Machine.{Machine, Commits, opened_machine};
    ghost use Rattle.ct_yard.specs.Yards.{StandsFor, IsSettled, KeptThrough};
    ghost use Rattle.ct_yard.specs.Writes.{HasOne, Writes, Performs, has_room_for};

    /// The yard of a store that was opened: its state, its log at rest, and the number of its last transaction.
    pub fn assemble(pages: P, state: State, log: Log<L>, front: u64) -> Yard<P, L>
        requires at_rest { IsAtRest log.flow }
        requires numbers { front ≤ 2 ^ 63 }
        ensures pages { result.pages ≡ pages }
        ensures state { result.state ≡ state }
        ensures log { result.log ≡ log }
        ensures front { result.front ≡ front }
        ensures running { result.halt ≡ None }
        ensures settled { IsSettled result }
        // Where its log holds the history, it stands for it.
        ensures stands { (founded : Bool) (text : List ℕ) (history : History) → IsHistory history → front ≡ last_number history → state ≡ after history
            → (IsTrue founded → IsLog L.content L.may_leave log)
            → (IsTrue founded → IsTextOf text history.transactions (durable_text L.content log)) → (IsTrue founded → log.flow.end < 2 ^ 62)
            → StandsFor founded (telling L.tells L.faults L.content L.may_leave L.left_since) text (opened_machine history (L.faults log.device) log.flow.end log.flow.next) result }
    {
        Yard {
            pages,
            state,
            log,
            front,
            halt: None,
        }
    }

    /// Makes one change a transaction of session 1, and answers its number. It is in the log for good at `Ok`.
    /// Where memory is wanted before the log has it, nothing has changed; later the store halts. It halts, too,
    /// where a number would come past its last value.
    pub fn commit(&mut self, alloc: Global, change: Change) -> Result<u64, CommitFault>
        requires running { self.old.halt ≡ None }
        requires allowed { allows self.old.state change ≡ true }
        requires settled { IsSettled self.old }
        ensures commits { let disk = telling L.tells L.faults L.content L.may_leave L.left_since in
            (founded : Bool) (text : List ℕ) (machine : Machine) → (IsTrue founded → IsTrue L.tells) → StandsFor founded disk text machine self.old →
            (next : Machine) × Commits machine change result next × StandsFor founded disk text next self.new
            × KeptThrough founded disk text machine self.old.log.device next self.new.log.device }
        ensures settled { IsSettled self.new }
        ensures pages { self.new.pages ≡ self.old.pages }
    {
        let transaction = single(alloc, self.front + 1, change)?;
        let group = group_of(alloc, &self.state, &transaction)?;
        let group = group.as_slice();
        if !self.has_room(group.len()) {
            return Err(self.halted(HaltCause::Limit));
        }
        self.write(group)?;
        self.perform(alloc, transaction)
    }

    /// Whether a group of this many bytes brings no number past its last value.
    fn has_room(&self, len: usize) -> bool
        requires at_rest { IsAtRest self.now.log.flow }
        requires short { len ≤ 8000 }
        ensures { result ≡ has_room_for self.now len }
    {
        self.front < LAST_NUMBER && self.log.has_room(len)
    }

    /// Writes a group to the log and makes it durable.
    fn write(&mut self, group: &[u8]) -> Result<(), CommitFault>
        requires some { 0 < length group.now }
        requires short { length group.now ≤ 8000 }
        requires room { has_room_for self.old (length group.now) ≡ true }
        requires running { self.old.halt ≡ None }
        requires settled { IsSettled self.old }
        ensures { Writes (telling L.tells L.faults L.content L.may_leave L.left_since) group.now result self.old self.new }
    {
        self.log.append(group)?;
        self.front += 1;
        match flush(&mut self.log) {
            Ok(()) => Ok(()),
            Err(error) => Err(self.halted(halt_cause(error))),
        }
    }

    /// Makes the change of a transaction that the log has. There it can only want memory.
    fn perform(&mut self, alloc: Global, transaction: Transaction) -> Result<u64, CommitFault>
        requires one { HasOne self.old.state transaction }
        ensures pages { self.new.pages ≡ self.old.pages }
        ensures log { self.new.log ≡ self.old.log }
        ensures front { self.new.front ≡ self.old.front }
        ensures done { Performs transaction result self.old self.new }
    {
        let mut changes = transaction.changes;
        match apply(alloc, &mut self.state, changes.remove(0)) {
            Ok(()) => Ok(self.front),
            Err(_) => Err(self.halted(HaltCause::Memory)),
        }
    }

    /// Keeps what halted the store.
    fn halted(&mut self, cause: HaltCause) -> CommitFault
        ensures fault { result ≡ CommitFault.Halted cause }
        ensures halt { self.new.halt ≡ Some cause }
        ensures pages { self.new.pages ≡ self.old.pages }
        ensures state { self.new.state ≡ self.old.state }
        ensures log { self.new.log ≡ self.old.log }
        ensures front { self.new.front ≡ self.old.front }
    {
        self.halt = Some(cause);
        CommitFault::Halted(cause)
    }
}
