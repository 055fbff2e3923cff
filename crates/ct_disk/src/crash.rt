//! What one crash makes of the bytes of a disk: draws in the place of what was not synced.

ghost use Rattle.std.specs.Prelude.{◌≡◌, ◌≤◌, ◌<◌, ◌+◌, ◌^◌, ℕ, length, slice_index, OnOk};
ghost use Rattle.ct_disk.specs.Disk.{Torn, Bent};

use crate::draws::Draws;
use ct_items::NoMemory;

/// Draws the bytes of a range anew.
fn scramble(bytes: &mut Vec<u8>, from: usize, to: usize, draws: &mut Draws)
    requires { to ≤ length bytes.old.items }
    ensures length { length bytes.new.items ≡ length bytes.old.items }
    ensures before { (k : ℕ) → k < from → slice_index bytes.new.items k ≡ slice_index bytes.old.items k }
    ensures behind { (k : ℕ) → to ≤ k → slice_index bytes.new.items k ≡ slice_index bytes.old.items k }
{
    for i in from..to {
        bytes[i] = draws.byte();
    }
}

/// Leaves any part of a write of `count` bytes at `at`.
pub(crate) fn tear(
    bytes: &mut Vec<u8>,
    at: usize,
    count: usize,
    draws: &mut Draws,
) -> Result<(), NoMemory>
    requires { at + count < 2 ^ 64 }
    ensures { OnOk result (Torn at count bytes.old.items bytes.new.items) }
{
    let old_end = bytes.len();
    let end = draws.between(old_end, old_end.max(at + count));
    bytes.resize(end, 0)?;
    scramble(bytes, at.min(old_end), end.min(at + count), draws);
    Ok(())
}

/// Leaves any part of a cut to a length.
pub(crate) fn bend(bytes: &mut Vec<u8>, len: usize, draws: &mut Draws) -> Result<(), NoMemory>
    ensures { OnOk result (Bent len bytes.old.items bytes.new.items) }
{
    let old_end = bytes.len();
    let end = draws.between(old_end.min(len), old_end.max(len));
    bytes.resize(end, 0)?;
    scramble(bytes, old_end.min(len), end, draws);
    Ok(())
}
