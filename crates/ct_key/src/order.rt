//! The order of bytes, the first eight of them compared at once.

ghost use Rattle.std.specs.Prelude.{◌≡◌, ◌<◌, ◌≤◌, ℕ, slice_index, length, take, reverse};
ghost use Rattle.std.specs.Ordering.{nat_cmp};
ghost use Rattle.std.specs.Cmp.Lexicographic.{slice_cmp};
ghost use Rattle.ct_key.specs.Order.{number_of, front_number};

use std::cmp::Ordering;

/// How bytes compare, the first pair that differs first.
pub fn compare_bytes(bytes: &[u8], others: &[u8]) -> Ordering
    ensures { result ≡ slice_cmp nat_cmp bytes.now others.now }
{
    if bytes.len() < 8 || others.len() < 8 {
        return bytes.cmp(&others);
    }
    let first = front_of(bytes);
    let second = front_of(others);
    if first != second {
        return first.cmp(&second);
    }
    let rest = &bytes[8..];
    rest.cmp(&&others[8..])
}

/// How bytes compare of which the front numbers are known: these decide where they differ.
pub fn compare_by_fronts(front: u64, bytes: &[u8], other_front: u64, others: &[u8]) -> Ordering
    requires front { front ≡ front_number bytes.now }
    requires other { other_front ≡ front_number others.now }
    ensures { result ≡ slice_cmp nat_cmp bytes.now others.now }
{
    if front != other_front {
        return front.cmp(&other_front);
    }
    compare_bytes(bytes, others)
}

/// The number that the first eight bytes give, high byte first, with zeros behind where there are fewer.
pub fn front_number(bytes: &[u8]) -> u64
    ensures { result ≡ front_number bytes.now }
{
    if 8 <= bytes.len() {
        return front_of(bytes);
    }
    u64::from_be_bytes([
        byte_at(bytes, 0),
        byte_at(bytes, 1),
        byte_at(bytes, 2),
        byte_at(bytes, 3),
        byte_at(bytes, 4),
        byte_at(bytes, 5),
        byte_at(bytes, 6),
        byte_at(bytes, 7),
    ])
}

// The byte at a place, or 0 behind the end.
fn byte_at(bytes: &[u8], place: usize) -> u8
    ensures { result ≡ slice_index bytes.now place }
{
    if place < bytes.len() { bytes[place] } else { 0 }
}

// The number that the first eight bytes give, high byte first.
fn front_of(bytes: &[u8]) -> u64
    requires { 8 ≤ length bytes.now }
    ensures number { result ≡ number_of (reverse (take 8 bytes.now)) }
    ensures front { result ≡ front_number bytes.now }
    ensures bytes { (k : ℕ) → slice_index bytes.now k < 256 }
{
    u64::from_be_bytes([
        bytes[0], bytes[1], bytes[2], bytes[3], bytes[4], bytes[5], bytes[6], bytes[7],
    ])
}
