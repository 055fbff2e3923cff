//! Bytes that are read, written over and cut.

ghost use Rattle.std.specs.Prelude.{◌≡◌, ◌<◌, ◌≤◌, ◌+◌, ◌-◌, ◌^◌, ◌++◌, length, take, drop, replicate, min, OnOk, OnErr};
ghost use Rattle.ct_disk.specs.Disk.{overlaid};

use ct_items::NoMemory;

/// Fills `into` with the bytes from `at` on, or with those up to the end. Answers how many.
pub(crate) fn copy_out(bytes: &[u8], at: usize, into: &mut [u8]) -> usize
    ensures count { result ≡ min (length into.old) (length bytes.now - at) }
    ensures bytes { take result into.new ≡ take result (drop at bytes.now) }
    ensures rest { drop result into.new ≡ drop result into.old }
{
    if at >= bytes.len() {
        return 0;
    }
    let rest = &bytes[at..];
    let count = into.len().min(rest.len());
    into[..count].copy_from_slice(&rest[..count]);
    count
}

/// Adds zeros up to this length, where there are fewer bytes.
fn grow(bytes: &mut Vec<u8>, len: usize) -> Result<(), NoMemory>
    ensures ok { OnOk result (bytes.new.items ≡ bytes.old.items ++ replicate (len - length bytes.old.items) 0) }
    ensures err { OnErr result (bytes.new.items ≡ bytes.old.items) }
{
    if bytes.len() < len {
        bytes.resize(len, 0)?;
    }
    Ok(())
}

/// Puts bytes in the place of those from `at` on.
fn replace(bytes: &mut Vec<u8>, at: usize, put: &[u8])
    requires { at + length put.now ≤ length bytes.old.items }
    ensures { bytes.new.items ≡ take at bytes.old.items ++ put.now ++ drop (at + length put.now) bytes.old.items }
{
    bytes[at..at + put.len()].copy_from_slice(put);
}

/// Puts bytes over those from `at` on, behind zeros where the end comes before it.
#[tactic(auto, using(crate::proofs::Overlays::overlaid_grown))]
pub(crate) fn write_over(bytes: &mut Vec<u8>, at: usize, put: &[u8]) -> Result<(), NoMemory>
    requires { at + length put.now < 2 ^ 64 }
    ensures ok { OnOk result (bytes.new.items ≡ overlaid bytes.old.items at put.now) }
    ensures err { OnErr result (bytes.new.items ≡ bytes.old.items) }
{
    grow(bytes, at + put.len())?;
    replace(bytes, at, put);
    Ok(())
}
