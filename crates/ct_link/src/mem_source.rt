//! A source in memory, whose bytes contracts see.
//! For tests it can fail at named calls and hand out its bytes in small pieces.

ghost use Rattle.std.specs.Prelude.{◌≡◌, ◌<◌, ◌≤◌, [], ◌∷◌, ◌++◌, if◌then◌else◌, Some, IfOk, OnErr, OnOk, drop, is_err, length, min, take};
ghost use Rattle.std.specs.Io.KnownBytes.{ReadConsumes, WriteAppends};
ghost use Rattle.ct_link.specs.Faults.{raised};
ghost use Rattle.ct_link.specs.Memory.{is_planned};
ghost use Rattle.ct_link.specs.Source.{CountsBytes, HasSourceCause, KeepsRest};

use crate::plan::Plan;
use crate::source::{Source, SourceFault};
use ct_items::{Items, NoMemory};
use std::alloc::Global;
use std::marker::Model;

/// The bytes of a slice as a source.
#[derive(Debug, Drop)]
pub struct MemSource {
    input: Items<u8>,
    at: usize,
    most: usize,
    plan: Plan,
}

impl Model for MemSource {
    ghost use Rattle.std.specs.Prelude.{◌<◌, ◌≤◌, drop, length, take};
    ghost use Rattle.ct_link.specs.Memory.{Intake};

    ghost Value = { Intake };

    ghost view = { λ s. record {
      taken = take s.at s.input;
      left = drop s.at s.input;
      most = s.most;
      calls = s.plan.calls;
      failing = s.plan.failing;
      faults = s.plan.faults;
    } };

    ghost invariant = { λ s. (s.at ≤ length s.input) × (0 < s.most) };
}

impl MemSource {
    /// A source of a copy of these bytes.
    pub fn new(alloc: Global, input: &[u8]) -> Result<MemSource, NoMemory>
        ensures { IfOk result (λ source.
            source ≡ record {
              taken = [];
              left = input.now;
              most = usize.MAX;
              calls = 0;
              failing = [];
              faults = 0;
            }) }
    {
        let input = Items::from_slice(alloc, input)?;
        Ok(MemSource {
            input,
            at: 0,
            most: usize::MAX,
            plan: Plan::new(alloc),
        })
    }

    /// Makes the call of this number fail, counted from 1.
    pub fn fail_at(&mut self, call: u64) -> Result<(), NoMemory>
        ensures ok { OnOk result (self.new ≡ record self.old { failing = self.old.failing ++ call ∷ [] }) }
        ensures err { OnErr result (self.new ≡ self.old) }
    {
        self.plan.fail_at(call)
    }

    /// Hands out at most `most` bytes a call from here on.
    pub fn in_pieces(&mut self, most: usize)
        requires { 0 < most }
        ensures { self.new ≡ record self.old { most = most } }
    {
        self.most = most;
    }
}

/// Copies the first bytes of `from`, at most `most`, to the front of `into`, and answers how many.
fn copy_front(from: &[u8], into: &mut [u8], most: usize) -> usize
    ensures count { result ≡ min (min (length from.now) (length into.old)) most }
    ensures front { take result into.new ≡ take result from.now }
    ensures rest { drop result into.new ≡ drop result into.old }
{
    let n = from.len().min(into.len()).min(most);
    into[..n].copy_from_slice(&from[..n]);
    n
}

impl Source for MemSource {
    ghost taken = { λ s. Some s.taken };

    ghost left = { λ s. Some s.left };

    ghost count = { λ s. length s.taken };

    ghost faults = { λ s. s.faults };

    fn take(&mut self, into: &mut [u8]) -> Result<usize, SourceFault>
        ensures bound { IfOk result (λ n. n ≤ length into.old) }
        ensures taken { WriteAppends (Some self.old.taken) (Some self.new.taken) result into.new }
        ensures left { ReadConsumes (Some self.old.left) (Some self.new.left) result into.new }
        ensures rest { KeepsRest result into.old into.new }
        ensures count { CountsBytes result (length self.old.taken) (length self.new.taken) }
        ensures later { self.old.faults ≤ self.new.faults }
        ensures cause { HasSourceCause result self.old.faults self.new.faults }

        // It takes all that there is to take and room for, up to the most.
        ensures pieces { IfOk result (λ n. n ≡ min (min (length self.old.left) (length into.old)) self.old.most) }
        ensures most { self.new.most ≡ self.old.most }

        // It fails exactly at the calls that were named, and counts one fault at each.
        ensures planned { is_err result ≡ is_planned self.old.failing self.new.calls }
        ensures faults { self.new.faults ≡ (if is_planned self.old.failing self.new.calls then raised self.old.faults else self.old.faults) }
        ensures calls { self.new.calls ≡ raised self.old.calls }
        ensures failing { self.new.failing ≡ self.old.failing }
    {
        if self.plan.next_fails() {
            return Err(SourceFault);
        }
        let left = &self.input.as_slice()[self.at..];
        let n = copy_front(left, into, self.most);
        self.at += n;
        Ok(n)
    }

    ghost use Rattle.std.specs.Prelude.{refl};

    ghost counts_taken = { λ s. refl };
}
