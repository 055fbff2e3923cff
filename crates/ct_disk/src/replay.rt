//! A history made again, as a read saw it and as one crash may have left it.

ghost use Rattle.std.specs.Prelude.{◌≡◌, ◌==◌, [], ◌∷◌, List, OnOk, not};
ghost use Rattle.ct_disk.specs.History.{Event, wrote, cut_to, after_sync, noted};
ghost use Rattle.ct_disk.specs.Replay.{Replays};

use crate::bytes::write_over;
use crate::crash::{bend, tear};
use crate::draws::Draws;
use crate::history::{Change, Entry, Put};
use ct_items::NoMemory;
use std::alloc::Global;

/// The bytes after a part of a history.
#[derive(Drop)]
pub(crate) struct Replay {
    /// As a read gave them.
    pub(crate) whole: Vec<u8>,
    /// As a crash may have left them.
    pub(crate) image: Vec<u8>,
    /// Whether the crash leaves draws of what was not synced, and not nothing of it.
    pub(crate) is_drawn: bool,
    draws: Draws,
}

impl Replay {
    /// No history. Pick 0 is the crash that leaves nothing of what was not synced.
    pub(crate) fn new(alloc: Global, pick: u64) -> Replay
        ensures replays { Replays [] result }
        ensures drawn { result.is_drawn ≡ not (pick == 0) }
    {
        Replay {
            whole: Vec::new(alloc),
            image: Vec::new(alloc),
            is_drawn: pick != 0,
            draws: Draws { state: pick },
        }
    }

    /// A sync, where there was one.
    pub(crate) fn settle(&mut self, is_synced: bool) -> Result<(), NoMemory>
        ensures replays { OnOk result ((past : List Event) → Replays past self.old → Replays (after_sync is_synced past) self.new) }
        ensures drawn { self.new.is_drawn ≡ self.old.is_drawn }
    {
        if !is_synced {
            return Ok(());
        }
        self.image.clear();
        self.image.extend_from_slice(&self.whole)?;
        Ok(())
    }

    fn write(&mut self, put: &Put) -> Result<(), NoMemory>
        ensures replays { OnOk result ((past : List Event) → Replays past self.old → Replays (wrote put.now.at put.now.bytes put.now.missing ∷ past) self.new) }
        ensures drawn { self.new.is_drawn ≡ self.old.is_drawn }
    {
        let bytes = put.bytes.as_slice();
        if self.is_drawn {
            tear(
                &mut self.image,
                put.at,
                bytes.len() + put.missing,
                &mut self.draws,
            )?;
        }
        write_over(&mut self.whole, put.at, bytes)?;
        Ok(())
    }

    fn cut(&mut self, len: usize) -> Result<(), NoMemory>
        ensures replays { OnOk result ((past : List Event) → Replays past self.old → Replays (cut_to len ∷ past) self.new) }
        ensures drawn { self.new.is_drawn ≡ self.old.is_drawn }
    {
        if self.is_drawn {
            bend(&mut self.image, len, &mut self.draws)?;
        }
        self.whole.resize(len, 0)?;
        Ok(())
    }

    /// One more entry.
    pub(crate) fn note(&mut self, entry: &Entry) -> Result<(), NoMemory>
        ensures replays { OnOk result ((past : List Event) → Replays past self.old → Replays (noted past entry.now) self.new) }
        ensures drawn { self.new.is_drawn ≡ self.old.is_drawn }
    {
        self.settle(entry.after_sync)?;
        match &entry.change {
            Change::Write(put) => self.write(put),
            Change::Cut(len) => self.cut(*len),
        }
    }
}
