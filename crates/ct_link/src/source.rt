//! Where bytes are taken from.

ghost use Rattle.std.specs.Prelude.{◌≡◌, ℕ, ◌≤◌, List, Option, IfOk, IfSome, length};
ghost use Rattle.std.specs.Io.KnownBytes.{ReadConsumes, WriteAppends};
ghost use Rattle.ct_link.specs.Source.{CountsBytes, HasSourceCause, KeepsRest};

use thiserror::Error;

/// A source could give no bytes: nothing was taken.
#[derive(Clone, Copy, Debug, PartialEq, Eq, Error)]
#[error("the source failed")]
pub struct SourceFault;

/// A source of bytes, which are taken in order.
///
/// It tells contracts the bytes taken and those left, or `None` where it does not know them, and
/// always how many were taken and how many of its calls failed. The first number never stops at a
/// last value: a source that cannot count on fails.
pub trait Source {
    // The bytes taken so far, where they are known.
    ghost taken: { Self → Option (List ℕ) };

    // The bytes still to be taken, where they are known.
    ghost left: { Self → Option (List ℕ) };

    // How many bytes were taken.
    ghost count: { Self → ℕ };

    // How many calls failed, up to 2 ^ 64 - 1.
    ghost faults: { Self → ℕ };

    /// Puts the next bytes at the front of `into`, and answers how many: none only where `into` is
    /// empty or the source at its end.
    fn take(&mut self, into: &mut [u8]) -> Result<usize, SourceFault>
        ensures bound { IfOk result (λ n. n ≤ length into.old) }
        ensures taken { WriteAppends (taken self.old) (taken self.new) result into.new }
        ensures left { ReadConsumes (left self.old) (left self.new) result into.new }
        ensures rest { KeepsRest result into.old into.new }
        ensures count { CountsBytes result (count self.old) (count self.new) }
        ensures later { faults self.old ≤ faults self.new }
        ensures cause { HasSourceCause result (faults self.old) (faults self.new) };

    // The number of bytes taken is their number, where they are known.
    ghost counts_taken: { (s : Self) → IfSome (taken s) (λ bytes. count s ≡ length bytes) };
}
