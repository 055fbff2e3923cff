//! A flush, one call of the device a step: the chunk's body, a sync, its gate, a sync.

ghost use Rattle.std.specs.Prelude.{◌≡◌, ◌<◌, ◌+◌, length, IsTrue};
ghost use Rattle.ct_disk.specs.Disk.{raised, HasCause, LeavesOnly};
ghost use Rattle.ct_log.specs.Flow.{Stepped, in_flush};
ghost use Rattle.ct_log.specs.Log.{IsLog, durable_text, text_after};
ghost use Rattle.ct_log.specs.Stages.{Stands};

use crate::log::Log;
use crate::places::OPEN;
use crate::stage::{FlushAt, Stage};
use ct_disk::{Disk, DiskError};

impl<L: Disk> Log<L> {
    /// Makes one step of a flush: it begins one with all groups that wait, or goes on with the one
    /// under way. After an `Err` the step is to be made again.
    pub fn flush_step(&mut self) -> Result<FlushAt, DiskError>
        requires unflushed { self.old.flow.durable + 1 < self.old.flow.next }
        ensures flow { Stepped result self.old.flow self.new.flow }
        ensures log { IsTrue L.tells → IsLog L.content L.may_leave self.old → IsLog L.content L.may_leave self.new }
        ensures text { IsTrue L.tells → IsLog L.content L.may_leave self.old → durable_text L.content self.new
            ≡ text_after result (durable_text L.content self.old) (in_flush self.old.flow) }
        // A crash at any moment leaves the durable text, or that and the chunk under way.
        ensures any_moment { IsTrue L.tells → IsLog L.content L.may_leave self.old → LeavesOnly L.left_since
            (Stands (durable_text L.content self.old) (in_flush self.old.flow)) self.old.device self.new.device }
        // Want of memory is the device's, since the one call of it was made.
        ensures calls { L.calls self.new.device ≡ raised (L.calls self.old.device) }
        ensures reads { L.reads self.new.device ≡ L.reads self.old.device }
        ensures cause { HasCause (L.faults self.old.device) (L.faults self.new.device) result }
    {
        match self.flow.stage {
            Stage::Idle => self.write_body(),
            Stage::Written => self.sync_body(),
            Stage::Stable => self.write_gate(),
            Stage::Opened => self.sync_gate(),
        }
    }

    /// Writes the body of a chunk of the groups that wait behind the closed gate.
    fn write_body(&mut self) -> Result<FlushAt, DiskError>
        requires stage { self.old.flow.stage ≡ Stage.Idle }
        requires some { 0 < length self.old.flow.waiting }
        ensures flow { Stepped result self.old.flow self.new.flow }
        ensures log { IsTrue L.tells → IsLog L.content L.may_leave self.old → IsLog L.content L.may_leave self.new }
        ensures text { IsTrue L.tells → IsLog L.content L.may_leave self.old → durable_text L.content self.new
            ≡ text_after result (durable_text L.content self.old) self.old.flow.waiting }
        ensures any_moment { IsTrue L.tells → IsLog L.content L.may_leave self.old → LeavesOnly L.left_since
            (Stands (durable_text L.content self.old) self.old.flow.waiting) self.old.device self.new.device }
        ensures calls { L.calls self.new.device ≡ raised (L.calls self.old.device) }
        ensures reads { L.reads self.new.device ≡ L.reads self.old.device }
        ensures cause { HasCause (L.faults self.old.device) (L.faults self.new.device) result }
    {
        let place = self.flow.end() + 1;
        self.device.write_at(place, self.flow.body())?;
        self.flow.take();
        Ok(FlushAt::Body)
    }

    /// Makes the body stable.
    fn sync_body(&mut self) -> Result<FlushAt, DiskError>
        requires stage { self.old.flow.stage ≡ Stage.Written }
        ensures flow { Stepped result self.old.flow self.new.flow }
        ensures log { IsTrue L.tells → IsLog L.content L.may_leave self.old → IsLog L.content L.may_leave self.new }
        ensures text { IsTrue L.tells → IsLog L.content L.may_leave self.old → durable_text L.content self.new
            ≡ text_after result (durable_text L.content self.old) self.old.flow.taken }
        ensures any_moment { IsTrue L.tells → IsLog L.content L.may_leave self.old → LeavesOnly L.left_since
            (Stands (durable_text L.content self.old) self.old.flow.taken) self.old.device self.new.device }
        ensures calls { L.calls self.new.device ≡ raised (L.calls self.old.device) }
        ensures reads { L.reads self.new.device ≡ L.reads self.old.device }
        ensures cause { HasCause (L.faults self.old.device) (L.faults self.new.device) result }
    {
        self.device.sync()?;
        self.flow.settle();
        Ok(FlushAt::Sync)
    }

    /// Writes the chunk's gate as open.
    fn write_gate(&mut self) -> Result<FlushAt, DiskError>
        requires stage { self.old.flow.stage ≡ Stage.Stable }
        ensures flow { Stepped result self.old.flow self.new.flow }
        ensures log { IsTrue L.tells → IsLog L.content L.may_leave self.old → IsLog L.content L.may_leave self.new }
        ensures text { IsTrue L.tells → IsLog L.content L.may_leave self.old → durable_text L.content self.new
            ≡ text_after result (durable_text L.content self.old) self.old.flow.taken }
        ensures any_moment { IsTrue L.tells → IsLog L.content L.may_leave self.old → LeavesOnly L.left_since
            (Stands (durable_text L.content self.old) self.old.flow.taken) self.old.device self.new.device }
        ensures calls { L.calls self.new.device ≡ raised (L.calls self.old.device) }
        ensures reads { L.reads self.new.device ≡ L.reads self.old.device }
        ensures cause { HasCause (L.faults self.old.device) (L.faults self.new.device) result }
    {
        let place = self.flow.end();
        self.device.write_at(place, &[OPEN])?;
        self.flow.open();
        Ok(FlushAt::Gate)
    }

    /// Makes the gate stable: the chunk is part of the log.
    fn sync_gate(&mut self) -> Result<FlushAt, DiskError>
        requires stage { self.old.flow.stage ≡ Stage.Opened }
        ensures flow { Stepped result self.old.flow self.new.flow }
        ensures log { IsTrue L.tells → IsLog L.content L.may_leave self.old → IsLog L.content L.may_leave self.new }
        ensures text { IsTrue L.tells → IsLog L.content L.may_leave self.old → durable_text L.content self.new
            ≡ text_after result (durable_text L.content self.old) self.old.flow.taken }
        ensures any_moment { IsTrue L.tells → IsLog L.content L.may_leave self.old → LeavesOnly L.left_since
            (Stands (durable_text L.content self.old) self.old.flow.taken) self.old.device self.new.device }
        ensures calls { L.calls self.new.device ≡ raised (L.calls self.old.device) }
        ensures reads { L.reads self.new.device ≡ L.reads self.old.device }
        ensures cause { HasCause (L.faults self.old.device) (L.faults self.new.device) result }
    {
        self.device.sync()?;
        self.flow.end_chunk();
        Ok(FlushAt::Done)
    }
}
