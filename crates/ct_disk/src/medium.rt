//! The bytes of a disk in memory, with all that they have gone through.

ghost use Rattle.std.specs.Prelude.{◌≡◌, ◌<◌, ◌+◌, ◌^◌, [], ◌∷◌, length, not, ◌==◌, IfOk, OnOk, OnErr};
ghost use Rattle.ct_disk.specs.Disk.{overlaid, resized};
ghost use Rattle.ct_disk.specs.History.{history, shown, wrote, stable, Leaves, cut_to, Syncs};

use crate::bytes::write_over;
use crate::history::{Change, Entry, Put};
use crate::replay::Replay;
use ct_items::{Items, NoMemory};
use std::alloc::Global;

/// Bytes, and the changes that led to them from none.
#[derive(Drop)]
pub(crate) struct Medium {
    pub(crate) alloc: Global,
    pub(crate) bytes: Vec<u8>,
    pub(crate) entries: Vec<Entry>,
    pub(crate) is_synced: bool,
    ghost told: { bytes.items ≡ shown (history entries.items is_synced) },
}

impl Medium {
    ghost use Rattle.ct_disk.specs.Replay.{Replays};

    /// No bytes.
    pub(crate) fn new(alloc: Global) -> Medium
        ensures bytes { result.bytes.items ≡ [] }
        ensures history { history result.entries.items result.is_synced ≡ [] }
    {
        Medium {
            alloc,
            bytes: Vec::new(alloc),
            entries: Vec::new(alloc),
            is_synced: false,
        }
    }

    /// Puts bytes at `at`, of a write that asked for `missing` more.
    pub(crate) fn write(&mut self, at: usize, bytes: &[u8], missing: usize) -> Result<(), NoMemory>
        requires { at + (length bytes.now + missing) < 2 ^ 64 }
        ensures bytes { OnOk result (self.new.bytes.items ≡ overlaid self.old.bytes.items at bytes.now) }
        ensures history { OnOk result (history self.new.entries.items self.new.is_synced
            ≡ wrote at bytes.now missing ∷ history self.old.entries.items self.old.is_synced) }
        ensures same_bytes { OnErr result (self.new.bytes.items ≡ self.old.bytes.items) }
        ensures same_history { OnErr result (history self.new.entries.items self.new.is_synced
            ≡ history self.old.entries.items self.old.is_synced) }
    {
        let put = Put {
            at,
            bytes: Items::from_slice(self.alloc, bytes)?,
            missing,
        };
        self.entries.reserve(1)?;
        write_over(&mut self.bytes, at, bytes)?;
        self.entries.push_reserved(Entry {
            after_sync: self.is_synced,
            change: Change::Write(put),
        });
        self.is_synced = false;
        Ok(())
    }

    /// Gives the bytes this length, with zeros at the end where it grows.
    pub(crate) fn cut(&mut self, len: usize) -> Result<(), NoMemory>
        ensures bytes { OnOk result (self.new.bytes.items ≡ resized self.old.bytes.items len) }
        ensures history { OnOk result (history self.new.entries.items self.new.is_synced
            ≡ cut_to len ∷ history self.old.entries.items self.old.is_synced) }
        ensures same_bytes { OnErr result (self.new.bytes.items ≡ self.old.bytes.items) }
        ensures same_history { OnErr result (history self.new.entries.items self.new.is_synced
            ≡ history self.old.entries.items self.old.is_synced) }
    {
        self.entries.reserve(1)?;
        self.bytes.resize(len, 0)?;
        self.entries.push_reserved(Entry {
            after_sync: self.is_synced,
            change: Change::Cut(len),
        });
        self.is_synced = false;
        Ok(())
    }

    /// Makes the bytes stable. It takes no memory.
    pub(crate) fn sync(&mut self)
        ensures bytes { self.new.bytes.items ≡ self.old.bytes.items }
        ensures history { Syncs (history self.old.entries.items self.old.is_synced)
            (history self.new.entries.items self.new.is_synced) }
    {
        self.is_synced = true;
    }

    /// What one crash leaves. Pick 0 gives what was stable, pick 1 what a read gives, and any other
    /// pick draws of what was not synced.
    #[tactic(auto, using(crate::specs::HistoryLaws::Leaves_as_shown))]
    pub(crate) fn image(&self, pick: u64) -> Result<Vec<u8>, NoMemory>
        ensures image { IfOk result (λ image. Leaves (history self.now.entries.items self.now.is_synced) image.items) }
        ensures stable { pick ≡ 0 → IfOk result (λ image. image.items ≡ stable (history self.now.entries.items self.now.is_synced)) }
        ensures shown { pick ≡ 1 → IfOk result (λ image. image.items ≡ self.now.bytes.items) }
    {
        if pick == 1 {
            return Ok(Vec::from_slice(self.alloc, &self.bytes)?);
        }
        let replay = self.replayed(pick)?;
        Ok(replay.image)
    }

    /// The history made again.
    fn replayed(&self, pick: u64) -> Result<Replay, NoMemory>
        ensures replays { IfOk result (Replays (history self.now.entries.items self.now.is_synced)) }
        ensures drawn { IfOk result (λ replay. replay.is_drawn ≡ not (pick == 0)) }
    {
        let mut replay = Replay::new(self.alloc, pick);
        for entry in &self.entries {
            replay.note(entry)?;
        }
        replay.settle(self.is_synced)?;
        Ok(replay)
    }
}
