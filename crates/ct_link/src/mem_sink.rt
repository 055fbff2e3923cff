//! A sink in memory, whose bytes contracts see.
//! For tests it can fail at named calls and write small pieces of what it is given.

ghost use Rattle.std.specs.Prelude.{◌≡◌, ◌<◌, ◌≤◌, [], ◌∷◌, ◌++◌, if◌then◌else◌, Some, IfOk, OnErr, OnOk, length, min};
ghost use Rattle.std.specs.Io.KnownBytes.{WriteAppends};
ghost use Rattle.ct_link.specs.Faults.{raised};
ghost use Rattle.ct_link.specs.Memory.{FailsAsPlanned, is_planned};
ghost use Rattle.ct_link.specs.Sink.{HasSinkCause};

use crate::plan::Plan;
use crate::sink::{Sink, SinkError};
use ct_items::{Items, NoMemory};
use std::alloc::Global;
use std::marker::Model;

/// Bytes that were written to memory.
#[derive(Debug, Drop)]
pub struct MemSink {
    written: Items<u8>,
    most: usize,
    plan: Plan,
}

impl Model for MemSink {
    ghost use Rattle.std.specs.Prelude.{◌<◌};
    ghost use Rattle.ct_link.specs.Memory.{Output};

    ghost Value = { Output };

    ghost view = { λ s. record {
      written = s.written;
      most = s.most;
      calls = s.plan.calls;
      failing = s.plan.failing;
      faults = s.plan.faults;
    } };

    ghost invariant = { λ s. 0 < s.most };
}

impl MemSink {
    /// A sink with nothing written. It keeps the allocator for later growth, and takes no memory.
    pub fn new(alloc: Global) -> MemSink
        ensures { result ≡ record { written = []; most = usize.MAX; calls = 0; failing = []; faults = 0 } }
    {
        MemSink {
            written: Items::new(alloc),
            most: usize::MAX,
            plan: Plan::new(alloc),
        }
    }

    /// What was written.
    pub fn bytes(&self) -> &[u8]
        ensures { result.now ≡ self.now.written }
    {
        self.written.as_slice()
    }

    /// Makes the call of this number fail, counted from 1.
    pub fn fail_at(&mut self, call: u64) -> Result<(), NoMemory>
        ensures ok { OnOk result (self.new ≡ record self.old { failing = self.old.failing ++ call ∷ [] }) }
        ensures err { OnErr result (self.new ≡ self.old) }
    {
        self.plan.fail_at(call)
    }

    /// Writes at most `most` bytes a call from here on.
    pub fn in_pieces(&mut self, most: usize)
        requires { 0 < most }
        ensures { self.new ≡ record self.old { most = most } }
    {
        self.most = most;
    }
}

impl Sink for MemSink {
    ghost written = { λ s. Some s.written };

    ghost faults = { λ s. s.faults };

    fn put(&mut self, bytes: &[u8]) -> Result<usize, SinkError>
        ensures bound { IfOk result (λ n. n ≤ length bytes.now) }
        ensures some { IfOk result (λ n. 0 < length bytes.now → 0 < n) }
        ensures written { WriteAppends (Some self.old.written) (Some self.new.written) result bytes.now }
        ensures later { self.old.faults ≤ self.new.faults }
        ensures cause { HasSinkCause result self.old.faults self.new.faults }

        // It writes all that it is given, up to the most.
        ensures pieces { IfOk result (λ n. n ≡ min (length bytes.now) self.old.most) }
        ensures most { self.new.most ≡ self.old.most }

        // It fails exactly at the calls that were named, and counts one fault at each.
        ensures planned { FailsAsPlanned result (is_planned self.old.failing self.new.calls) }
        ensures faults { self.new.faults ≡ (if is_planned self.old.failing self.new.calls then raised self.old.faults else self.old.faults) }
        ensures calls { self.new.calls ≡ raised self.old.calls }
        ensures failing { self.new.failing ≡ self.old.failing }
    {
        if self.plan.next_fails() {
            return Err(SinkError::Fault);
        }
        let n = bytes.len().min(self.most);
        let Ok(()) = self.written.extend_from_slice(&bytes[..n]) else {
            return Err(SinkError::Memory);
        };
        Ok(n)
    }
}
