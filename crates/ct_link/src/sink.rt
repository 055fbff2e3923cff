//! Where bytes are written to.

ghost use Rattle.std.specs.Prelude.{◌≡◌, ℕ, ◌<◌, ◌≤◌, List, Option, IfOk, OnErr, OnOk, length};
ghost use Rattle.std.specs.Io.KnownBytes.{Appends, WriteAppends};
ghost use Rattle.ct_link.specs.Sink.{AppendsPart, HasSinkCause};

use ct_items::NoMemory;
use thiserror::Error;

/// Why a sink took nothing of a piece.
#[derive(Clone, Copy, Debug, PartialEq, Eq, Error)]
pub enum SinkError {
    #[error("the sink failed")]
    Fault,
    #[error("the sink is out of memory")]
    Memory,
}

/// A sink of bytes, which are written in order.
///
/// It tells contracts the bytes written, or `None` where it does not know them, and always how many
/// of its calls failed.
pub trait Sink {
    // The bytes written so far, where they are known.
    ghost written: { Self → Option (List ℕ) };

    // How many calls failed, up to 2 ^ 64 - 1. Want of memory is no fault.
    ghost faults: { Self → ℕ };

    /// Writes the first bytes of a piece, and answers how many: at least one, unless the piece is
    /// empty. After an `Err` nothing of the piece was written.
    fn put(&mut self, bytes: &[u8]) -> Result<usize, SinkError>
        ensures bound { IfOk result (λ n. n ≤ length bytes.now) }
        ensures some { IfOk result (λ n. 0 < length bytes.now → 0 < n) }
        ensures written { WriteAppends (written self.old) (written self.new) result bytes.now }
        ensures later { faults self.old ≤ faults self.new }
        ensures cause { HasSinkCause result (faults self.old) (faults self.new) };
}

/// Writes all the bytes, in as many calls as the sink needs. After an `Err` it has a first part of
/// them, and not all.
pub fn put_all<O: Sink>(out: &mut O, bytes: &[u8]) -> Result<(), SinkError>
    ensures ok { OnOk result (Appends (O.written out.old) (O.written out.new) bytes.now) }
    ensures err { OnErr result (AppendsPart (O.written out.old) (O.written out.new) bytes.now) }
    ensures later { O.faults out.old ≤ O.faults out.new }
    ensures cause { HasSinkCause result (O.faults out.old) (O.faults out.new) }
{
    let mut done = 0;
    while done < bytes.len() {
        done += out.put(&bytes[done..])?;
    }
    Ok(())
}
