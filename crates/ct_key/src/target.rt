//! Targets of searches: the first bytes of the segments of the images that are sought.
//! Written by their segments, they are the first bytes of those images' keys.

ghost use Rattle.std.specs.Prelude.{◌≡◌, ◌+◌, ◌-◌, ◌^◌, ◌<◌, ◌≤◌, [], ◌∷◌, ◌++◌, length, true, false, Some, None};
ghost use Rattle.ct_definitions.specs.Validity.{key_len};
ghost use Rattle.ct_key.specs.Target.{is_number, ends_in_number, target_bytes, target_from};

use crate::key_buf::KeyBuf;
use crate::parts::add_part;
use ct_definitions::{LONGEST_KEY, Mode, Seg};

/// Writes the bytes of a target as keys have them.
///
/// The answer is false where the target is empty, longer than the key, or ends inside a number.
pub fn target_key(segs: &[Seg], target: &[u8], into: &mut KeyBuf) -> bool
    requires { key_len segs.now ≤ LONGEST_KEY }
    ensures target { result ≡ true → target_from segs.now target.now ≡ Some into.new }
    ensures refused { result ≡ false → target_from segs.now target.now ≡ None }
    ensures kept { result ≡ false → into.new ≡ into.old }
    ensures len { result ≡ true → length into.new ≡ length target.now }
{
    let len = target.len();
    if len == 0 || key_len(segs) < len || ends_in_number(segs, len) {
        return false;
    }
    into.clear();
    add_target(segs, target, into);
    true
}

// Adds the target's bytes, segment by segment.
fn add_target(segs: &[Seg], target: &[u8], into: &mut KeyBuf)
    requires { length into.old + length target.now ≤ LONGEST_KEY }
    ensures { into.new ≡ into.old ++ target_bytes segs.now target.now }
{
    let mut rest = target;
    for seg in segs {
        let (bytes, behind) = rest.split_at(usize::from(seg.len).min(rest.len()));
        add_part(*seg, bytes, into);
        rest = behind;
    }
}

/// How long each key of the segments is.
pub fn key_len(segs: &[Seg]) -> usize
    requires { key_len segs.now < 2 ^ 64 }
    ensures { result ≡ key_len segs.now }
{
    segs.iter().map(|seg| usize::from(seg.len)).sum()
}

// Whether the first `len` bytes of the segments end inside a number.
fn ends_in_number(segs: &[Seg], len: usize) -> bool
    ensures { result ≡ ends_in_number segs.now len }
{
    let mut left = len;
    for seg in segs {
        let seg_len = usize::from(seg.len);
        if left < seg_len {
            return is_number(seg.mode) && 0 < left;
        }
        left -= seg_len;
    }
    false
}

fn is_number(mode: Mode) -> bool
    ensures { result ≡ is_number mode }
{
    match mode {
        Mode::Reg | Mode::Ureg => false,
        Mode::Int | Mode::Sgn => true,
    }
}
