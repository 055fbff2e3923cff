//! What is held of a line whose end has not come.

ghost use Rattle.std.specs.Prelude.{◌≡◌, ◌≤◌, [], Some, None, IfOk, option_copied};
ghost use Rattle.ct_lines.specs.Lines.{held_with, line_ended, line_unfinished, line_of, is_within_line, without_cr, is_cr};

use ct_items::NoMemory;
use std::alloc::Global;
use std::marker::Model;

/// The longest line, in bytes, without its LF and the CR before it.
pub const LONGEST_LINE: usize = 16384;

/// How many bytes are held at most: a longest line, and a CR that may be dropped.
const ROOM: usize = LONGEST_LINE + 1;

/// What is held of a line whose end has not come: its bytes, or only that it is too long.
/// All memory is taken when it is made.
#[derive(Debug, Drop)]
pub struct Held {
    bytes: Vec<u8>,
    is_long: bool,
}

impl Model for Held {
    ghost use Rattle.std.specs.Prelude.{◌≤◌, List, ℕ, Option, Some, None, if◌then◌else◌, vec_len, vec_capacity};
    ghost use Rattle.ct_lines.specs.declared.held.TheConstants.{ROOM};

    ghost Value = { Option (List ℕ) };

    ghost view = { λ h. if h.is_long then None else Some h.bytes.items };

    ghost invariant = { λ h. (vec_len h.bytes ≤ ROOM) × (ROOM ≤ vec_capacity h.bytes) };
}

impl Held {
    /// Nothing held: the beginning of a line.
    pub fn new(alloc: Global) -> Result<Held, NoMemory>
        ensures { IfOk result (λ held. held ≡ Some []) }
    {
        let bytes = Vec::with_capacity(alloc, ROOM)?;
        Ok(Held {
            bytes,
            is_long: false,
        })
    }

    /// Holds more bytes of the line. It takes no memory.
    pub fn hold(&mut self, piece: &[u8])
        ensures { self.new ≡ held_with self.old piece.now }
    {
        if self.is_long {
            return;
        }
        if piece.len() > ROOM - self.bytes.len() {
            self.is_long = true;
            return;
        }
        // There is room for these bytes since the beginning.
        let _ = self.bytes.extend_from_slice(piece);
    }

    /// Forgets what is held: the beginning of the next line.
    pub fn clear(&mut self)
        ensures { self.new ≡ Some [] }
    {
        self.bytes.clear();
        self.is_long = false;
    }

    /// The line that ends here with an LF, or none where it is too long.
    pub fn ended(&self) -> Option<&[u8]>
        ensures { option_copied result ≡ line_ended self.now }
    {
        if self.is_long {
            return None;
        }
        within_limit(without_cr(self.bytes.as_slice()))
    }

    /// Whether the input would end within a line here.
    pub fn is_within_line(&self) -> bool
        ensures { result ≡ is_within_line self.now }
    {
        self.is_long || !self.bytes.is_empty()
    }

    /// The line that ends here with the input, or none where it is too long.
    pub fn unfinished(&self) -> Option<&[u8]>
        ensures { option_copied result ≡ line_unfinished self.now }
    {
        if self.is_long {
            return None;
        }
        within_limit(self.bytes.as_slice())
    }
}

/// The line, where it is not too long.
fn within_limit(line: &[u8]) -> Option<&[u8]>
    ensures { option_copied result ≡ line_of line.now }
{
    if line.len() <= LONGEST_LINE {
        Some(line)
    } else {
        None
    }
}

/// The bytes without a CR at their end.
fn without_cr(bytes: &[u8]) -> &[u8]
    ensures { result.now ≡ without_cr bytes.now }
{
    match bytes.last() {
        Some(b'\r') => &bytes[..bytes.len() - 1],
        _ => bytes,
    }
}
