//! A session's own changes, which wait for the commit, and its savepoints.

ghost use Rattle.std.specs.Prelude.{◌≡◌, ◌++◌, ◌∷◌, [], ◌+◌, ◌≤◌, length, true, false, IfOk, OnOk, OnErr, IsErrOf};
ghost use Rattle.ct_change_codec.specs.ChangeFormat.{LengthsFit};
ghost use Rattle.ct_tran.specs.Owned.{nothing_owned, has_room, has_room_for, with_changes, with_save, is_kept, restored, is_of_record};

use crate::lengths::encoded_len;
use ct_definitions::{Change, Changes};
use ct_items::{Items, NoMemory};
use std::alloc::Global;
use std::marker::Model;
use thiserror::Error;

/// A transaction has at most this many changes.
const MOST_CHANGES: usize = 4096;

/// A transaction has at most this many bytes of changes, as the log spells them.
const MOST_BYTES: u64 = 8_388_608;

/// Why a change was not added.
#[derive(Clone, Copy, Debug, PartialEq, Eq, Error)]
pub enum OwnFault {
    /// It would bring the transaction past a limit.
    #[error("the transaction is full")]
    Full,
    /// There was no memory for it.
    #[error("out of memory")]
    Memory,
}

/// How far the changes had come at a savepoint.
#[derive(Clone, Copy, Debug)]
struct Save {
    count: usize,
    len: u64,
}

/// The changes of an open transaction and its savepoints, at most 4,096 changes of 8,388,608 bytes.
#[derive(Drop)]
pub struct Own {
    changes: Vec<Change>,
    /// The bytes of all changes.
    len: u64,
    saves: Vec<Save>,
}

impl Model for Own {
    ghost use Rattle.std.specs.Prelude.{take, map};
    ghost use Rattle.ct_tran.specs.Owned.{Owned};
    ghost use Rattle.ct_tran.specs.Counting.{IsCounted};

    ghost Value = { Owned };

    ghost view = { λ own. record { changes = own.changes.items; saves = map (λ save. take save.count own.changes.items) own.saves.items } };

    ghost invariant = { λ own. IsCounted own.changes.items own.len own.saves.items };
}

impl Own {
    /// A transaction without a change or a savepoint.
    pub fn new(alloc: Global) -> Own
        ensures { result ≡ nothing_owned }
    {
        Own {
            changes: Vec::new(alloc),
            len: 0,
            saves: Vec::new(alloc),
        }
    }

    /// The changes, in the order of their calls.
    pub fn changes(&self) -> &[Change]
        ensures { result.now ≡ self.now.changes }
    {
        self.changes.as_slice()
    }

    /// How many savepoints are kept.
    pub fn saves(&self) -> usize
        ensures { result ≡ length self.now.saves }
    {
        self.saves.len()
    }

    /// Whether so many more changes of so many bytes keep the transaction within its limits.
    fn has_room(&self, count: usize, len: u64) -> bool
        requires few { count ≤ 2 }
        ensures { result ≡ has_room count len self.now }
    {
        self.changes.len() + count <= MOST_CHANGES
            && len <= MOST_BYTES
            && self.len + len <= MOST_BYTES
    }

    /// Adds a change of a record.
    pub fn add(&mut self, change: Change) -> Result<(), OwnFault>
        requires record { is_of_record change ≡ true }
        requires fits { LengthsFit change }
        ensures ok { OnOk result (self.new ≡ with_changes (change ∷ []) self.old) }
        ensures room { OnOk result (has_room_for (change ∷ []) self.old ≡ true) }
        ensures full { IsErrOf result OwnFault.Full → has_room_for (change ∷ []) self.old ≡ false }
        ensures err { OnErr result (self.new ≡ self.old) }
    {
        let len = encoded_len(&change);
        if !self.has_room(1, len) {
            return Err(OwnFault::Full);
        }
        if self.changes.push(change).is_err() {
            return Err(OwnFault::Memory);
        }
        self.len += len;
        Ok(())
    }

    /// Adds the two changes of a record that moves: both or none.
    pub fn add_both(&mut self, first: Change, second: Change) -> Result<(), OwnFault>
        requires first_record { is_of_record first ≡ true }
        requires second_record { is_of_record second ≡ true }
        requires first_fits { LengthsFit first }
        requires second_fits { LengthsFit second }
        ensures ok { OnOk result (self.new ≡ with_changes (first ∷ second ∷ []) self.old) }
        ensures room { OnOk result (has_room_for (first ∷ second ∷ []) self.old ≡ true) }
        ensures full { IsErrOf result OwnFault.Full → has_room_for (first ∷ second ∷ []) self.old ≡ false }
        ensures err { OnErr result (self.new ≡ self.old) }
    {
        let len = encoded_len(&first) + encoded_len(&second);
        if !self.has_room(2, len) {
            return Err(OwnFault::Full);
        }
        if self.changes.push(first).is_err() {
            return Err(OwnFault::Memory);
        }
        if self.changes.push(second).is_err() {
            self.changes.pop();
            return Err(OwnFault::Memory);
        }
        self.len += len;
        Ok(())
    }

    /// Keeps a savepoint, and answers its number: one more than there were.
    pub fn save(&mut self) -> Result<u64, NoMemory>
        ensures number { IfOk result (λ number. number ≡ length self.old.saves + 1) }
        ensures ok { OnOk result (self.new ≡ with_save self.old) }
        ensures err { OnErr result (self.new ≡ self.old) }
    {
        self.saves.push(Save {
            count: self.changes.len(),
            len: self.len,
        })?;
        Ok(self.saves.len() as u64)
    }

    /// Goes back to a savepoint, where it is kept: the changes made since and the savepoints above it are
    /// dropped, and it stays. Otherwise nothing has changed. It takes no memory.
    pub fn restore(&mut self, number: u64) -> bool
        ensures kept { result ≡ is_kept number self.old }
        ensures restored { result ≡ true → self.new ≡ restored number self.old }
        ensures refused { result ≡ false → self.new ≡ self.old }
    {
        let kept = self.saves.len() as u64;
        if number == 0 || number > kept {
            return false;
        }
        let number = number as usize;
        let save = self.saves[number - 1];
        self.changes.truncate(save.count);
        self.len = save.len;
        self.saves.truncate(number);
        true
    }

    /// Drops all changes and savepoints. It takes no memory.
    pub fn drop_all(&mut self)
        ensures { self.new ≡ nothing_owned }
    {
        self.changes.clear();
        self.len = 0;
        self.saves.clear();
    }

    /// The changes alone, for the transaction that they make.
    pub fn into_changes(self) -> Changes
        ensures { result ≡ self.changes }
    {
        let Own {
            changes,
            len: _,
            saves: _saves,
        } = self;
        Items::from_vec(changes)
    }
}
