//! The parts that segments take from an image, and the key that they make together.
//! Each byte of a segment is transformed as it is read, and no memory is taken.

ghost use Rattle.std.specs.Prelude.{◌≡◌, ◌+◌, ◌-◌, ◌<◌, ◌≤◌, [], ◌∷◌, ◌++◌, ◌==◌, length, map, reverse, true, false, if◌then◌else◌, IsTrue, Some, None};
ghost use Rattle.std.specs.List.{list_all};
ghost use Rattle.ct_definitions.specs.Keys.{upper_cased, sign_turned, segment_bytes, in_mode, complemented, key_part, is_null_key, key_from};
ghost use Rattle.ct_definitions.specs.Validity.{is_valid_seg, key_len};
ghost use Rattle.ct_key.specs.Parts.{in_order, byte_in_order, part_of};

use crate::key_buf::KeyBuf;
use ct_definitions::{LONGEST_KEY, Mode, Seg};

/// Writes the key of an image.
///
/// The answer is false where the image has no key, since all bytes of its segments are the null byte.
pub fn key_of(segs: &[Seg], null: Option<u8>, image: &[u8], into: &mut KeyBuf) -> bool
    requires valid { list_all (is_valid_seg (length image.now)) segs.now ≡ true }
    requires short { key_len segs.now ≤ LONGEST_KEY }
    ensures key { result ≡ true → key_from segs.now null image.now ≡ Some into.new }
    ensures null { result ≡ false → key_from segs.now null image.now ≡ None }
    ensures kept { result ≡ false → into.new ≡ into.old }
    ensures len { result ≡ true → length into.new ≡ key_len segs.now }
{
    if is_null_key(segs, null, image) {
        return false;
    }
    into.clear();
    for seg in segs {
        add_part(*seg, bytes_of(*seg, image), into);
    }
    true
}

/// Whether all bytes of the segments are the null byte: it stops at the first other one.
fn is_null_key(segs: &[Seg], null: Option<u8>, image: &[u8]) -> bool
    requires { list_all (is_valid_seg (length image.now)) segs.now ≡ true }
    ensures { result ≡ is_null_key segs.now null image.now }
{
    let Some(null) = null else {
        return false;
    };
    for seg in segs {
        if !has_only(bytes_of(*seg, image), null) {
            return false;
        }
    }
    true
}

fn has_only(bytes: &[u8], null: u8) -> bool
    ensures { result ≡ list_all (λ byte. byte == null) bytes.now }
{
    bytes.iter().all(|byte| *byte == null)
}

// A segment's bytes as they stand in the image.
fn bytes_of(seg: Seg, image: &[u8]) -> &[u8]
    requires { is_valid_seg (length image.now) seg ≡ true }
    ensures bytes { result.now ≡ segment_bytes seg image.now }
    ensures len { length result.now ≡ seg.len }
{
    let at = usize::from(seg.at);
    &image[at..at + usize::from(seg.len)]
}

// Adds a segment's bytes as the key has them.
pub(crate) fn add_part(seg: Seg, bytes: &[u8], into: &mut KeyBuf)
    requires { length into.old + length bytes.now ≤ LONGEST_KEY }
    ensures { into.new ≡ into.old ++ part_of seg bytes.now }
{
    match seg.mode {
        Mode::Reg => add_plain(bytes, seg.desc, into),
        Mode::Ureg => add_upper_cased(bytes, seg.desc, into),
        Mode::Int => add_reversed(bytes, seg.desc, into),
        Mode::Sgn => add_signed(bytes, seg.desc, into),
    }
}

fn add_plain(bytes: &[u8], desc: bool, into: &mut KeyBuf)
    requires { length into.old + length bytes.now ≤ LONGEST_KEY }
    ensures { into.new ≡ into.old ++ in_order desc bytes.now }
{
    if !desc {
        return into.extend_within(bytes);
    }
    for byte in bytes {
        into.push_within(byte_in_order(desc, *byte));
    }
}

fn add_upper_cased(bytes: &[u8], desc: bool, into: &mut KeyBuf)
    requires { length into.old + length bytes.now ≤ LONGEST_KEY }
    ensures { into.new ≡ into.old ++ in_order desc (map upper_cased bytes.now) }
{
    for byte in bytes {
        into.push_within(byte_in_order(desc, upper_cased(*byte)));
    }
}

fn add_reversed(bytes: &[u8], desc: bool, into: &mut KeyBuf)
    requires { length into.old + length bytes.now ≤ LONGEST_KEY }
    ensures { into.new ≡ into.old ++ in_order desc (reverse bytes.now) }
{
    for byte in bytes.iter().rev() {
        into.push_within(byte_in_order(desc, *byte));
    }
}

fn add_signed(bytes: &[u8], desc: bool, into: &mut KeyBuf)
    requires { length into.old + length bytes.now ≤ LONGEST_KEY }
    ensures { into.new ≡ into.old ++ in_order desc (sign_turned (reverse bytes.now)) }
{
    if let [low @ .., high] = bytes {
        into.push_within(byte_in_order(desc, sign_turned(*high)));
        add_reversed(low, desc, into);
    }
}

// A byte as a key has it, complemented where greater values sort first.
fn byte_in_order(desc: bool, byte: u8) -> u8
    ensures { result ≡ byte_in_order desc byte }
{
    if desc { u8::MAX - byte } else { byte }
}

// A byte with a to z made upper case.
fn upper_cased(byte: u8) -> u8
    ensures { result ≡ upper_cased byte }
{
    match byte {
        b'a'..=b'z' => byte - 32,
        _ => byte,
    }
}

// The byte with its top bit turned.
fn sign_turned(byte: u8) -> u8
    ensures { result ∷ [] ≡ sign_turned (byte ∷ []) }
{
    byte ^ 0x80
}
