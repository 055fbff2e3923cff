//! The kinds of work: a page copied, a record read, put and taken out, a page fetched that is here.
//! Each goes round several pages or records, so that no round can be left out.

use ct_disk::MemDisk;
use ct_frames::{Fetched, FrameFault, Frames};
use ct_page::PAGE_SIZE;
use ct_slots::Slots;
use std::alloc::Global;

/// How many records the page has, and how long each is.
const RECORDS: u64 = 31;

const RECORD_SIZE: usize = 100;

/// How many pages are copied in turn.
const COPIED: usize = 4;

/// How many pages are here.
const FETCHED: u64 = 256;

/// Does the work. Answers `None` where there is no such work, or no memory for it.
pub fn sum_of(alloc: Global, work: &str, count: u64) -> Option<u64> {
    match work {
        "copy" => Some(copy(count)),
        "get" => Some(get(&full_page(), count)),
        "set" => Some(set(&mut full_page(), count)),
        "resize" => Some(resize(&mut full_page(), count)),
        "clear" => Some(clear(&mut full_page(), count)),
        "fetch" => fetch(alloc, count).ok(),
        _ => None,
    }
}

/// Copies a page of 4 KiB to the next one, round and round.
fn copy(count: u64) -> u64 {
    let mut pages = [[1u8; PAGE_SIZE]; COPIED];
    for round in 0..count {
        let from = (round % COPIED as u64) as usize;
        pages.copy_within(from..from + 1, (from + 1) % COPIED);
    }
    u64::from(pages[0][0])
}

/// A page with all of its records.
fn full_page() -> Slots {
    let mut slots = Slots::new(0);
    for num in 0..RECORDS {
        put(&mut slots, num, &[1; RECORD_SIZE]);
    }
    slots
}

/// Puts a record in where there is room for one more.
fn put(slots: &mut Slots, num: u64, image: &[u8]) {
    if image.len() <= RECORD_SIZE && slots.room() >= RECORD_SIZE + 8 {
        slots.set(num, image);
    }
}

/// Reads one record after the other.
fn get(slots: &Slots, count: u64) -> u64 {
    let mut sum: u64 = 0;
    for round in 0..count {
        if let Some([first, ..]) = slots.get(round % RECORDS) {
            sum = sum.wrapping_add(u64::from(*first));
        }
    }
    sum
}

/// Puts another image in the place of one record after the other.
fn set(slots: &mut Slots, count: u64) -> u64 {
    for round in 0..count {
        put(slots, round % RECORDS, &[2; RECORD_SIZE]);
    }
    slots.room() as u64
}

/// Puts an image of another length in the place of one record after the other.
fn resize(slots: &mut Slots, count: u64) -> u64 {
    let image = [2; RECORD_SIZE];
    for round in 0..count {
        // The number of records is odd, so each record is longer and shorter in turn.
        if round % 2 == 0 {
            put(slots, round % RECORDS, &image[4..]);
        } else {
            put(slots, round % RECORDS, &image);
        }
    }
    slots.room() as u64
}

/// Takes out one record after the other, and puts each in again: two edits a round.
fn clear(slots: &mut Slots, count: u64) -> u64 {
    for round in 0..count {
        slots.clear(round % RECORDS);
        put(slots, round % RECORDS, &[2; RECORD_SIZE]);
    }
    slots.room() as u64
}

/// Fetches pages that are here, round and round, and counts the fetches.
fn fetch(alloc: Global, count: u64) -> Result<u64, FrameFault> {
    let mut frames = Frames::new(alloc, MemDisk::new(alloc));
    for page in 0..FETCHED {
        frames.fetch(page)?;
    }
    let mut sum: u64 = 0;
    for round in 0..count {
        if frames.fetch(round % FETCHED)? == Fetched::Here {
            sum = sum.wrapping_add(1);
        }
    }
    Ok(sum)
}
