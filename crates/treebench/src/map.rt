//! The pairs in an ordered map of std.

use crate::keys::key_of;
use std::alloc::Global;
use std::collections::BTreeMap;

/// Puts so many pairs, and gives their count.
pub fn put(alloc: Global, count: u32) -> Option<u64> {
    Some(filled(alloc, count)?.len() as u64)
}

/// Puts so many pairs, then finds each; gives the sum of the numbers found.
pub fn put_and_get(alloc: Global, count: u32) -> Option<u64> {
    let map = filled(alloc, count)?;
    let mut sum: u64 = 0;
    for place in 0..count {
        sum = sum.wrapping_add(*map.get(&key_of(u64::from(place)))?);
    }
    Some(sum)
}

fn filled(alloc: Global, count: u32) -> Option<BTreeMap<[u8; 8], u64, Global>> {
    let mut map = BTreeMap::new(alloc);
    for place in 0..count {
        let place = u64::from(place);
        map.insert(key_of(place), place).ok()?;
    }
    Some(map)
}
