//! Logs in memory, their chunks spelled by hand, opened again.

ghost use Rattle.std.specs.Prelude.{◌≤◌, length};

use super::*;
use ct_disk::{Disk, DiskError, MemDisk};
use ct_log::{make_log, open_gate};
use ct_model::{State, file_at, has_image};
use ct_yard::Yard;
use std::alloc::Global;

/// Where the chunks of a log begin.
const CHUNKS_AT: u64 = 12288;

// The chunk of transaction 1, which makes the file `p` of images of four bytes with one key.
const MAKE: [u8; 52] = [
    1, 47, 0, 0, 0, 1, 42, 0, 0, 0, 1, 0, 0, 0, 0, 0, 0, 0, 1, 0, 0, 1, 0, 0, 0, 1, 0, 0, 1, 112,
    0, 4, 0, 0, 0, 4, 0, 0, 0, 1, 1, 105, 0, 0, 0, 1, 0, 0, 4, 0, 0, 0,
];

// The chunk of transaction 2, which adds the image 0001 to that file under number 1, and the closed gate that ends the log.
const ADD: [u8; 45] = [
    1, 39, 0, 0, 0, 1, 34, 0, 0, 0, 2, 0, 0, 0, 0, 0, 0, 0, 1, 0, 0, 1, 0, 0, 0, 2, 0, 0, 1, 0, 0,
    0, 0, 0, 0, 0, 4, 0, 0, 0, 48, 48, 48, 49, 0,
];

// A chunk whose group is a mark behind transaction 1, and the closed gate that ends the log.
const MARK: [u8; 19] = [1, 13, 0, 0, 0, 4, 8, 0, 0, 0, 1, 0, 0, 0, 0, 0, 0, 0, 0];

/// Where the second chunk stands, and where in it the number of its transaction does.
const SECOND_AT: u64 = CHUNKS_AT + 52;

const NUMBER_AT: u64 = SECOND_AT + 10;

// a log with these bytes behind its front
fn log_with(alloc: Global, chunks: &[u8]) -> Result<MemDisk, DiskError>
    requires { length chunks.now ≤ 4096 }
{
    let mut device = MemDisk::new(alloc);
    make_log(&mut device, b"STORE", 0)?;
    open_gate(&mut device)?;
    device.write_at(CHUNKS_AT, chunks)?;
    Ok(device)
}

// a log with both chunks, of which the second has this number
fn two_chunks(alloc: Global, number: u8) -> Result<MemDisk, DiskError> {
    let mut device = log_with(alloc, &MAKE)?;
    device.write_at(SECOND_AT, &ADD)?;
    device.write_at(NUMBER_AT, &[number])?;
    Ok(device)
}

// a log whose second chunk has a mark
fn chunk_and_mark(alloc: Global) -> Result<MemDisk, DiskError> {
    let mut device = log_with(alloc, &MAKE)?;
    device.write_at(SECOND_AT, &MARK)?;
    Ok(device)
}

// opens the store: its state, the number of its last transaction, the ordinal of the next group, and the log's end
fn opened(alloc: Global, device: MemDisk) -> Result<(State, u64, u64, u64), OpenFault> {
    match open_store(alloc, MemDisk::new(alloc), device) {
        Ok(yard) => {
            let Yard {
                pages: _pages,
                state,
                log,
                front,
                halt: _,
            } = yard;
            let next = log.next();
            let end = log.end();
            Ok((state, front, next, end))
        }
        Err((fault, _pages, _log)) => Err(fault),
    }
}

// why it is not opened
fn refusal(alloc: Global, device: MemDisk) -> Option<OpenFault> {
    match opened(alloc, device) {
        Ok(_opened) => None,
        Err(fault) => Some(fault),
    }
}

#[test]
fn chunks_are_replayed(rt: HostRuntime) {
    let device = two_chunks(rt.alloc(), 2).expect(&rt, "a log");
    let (state, front, next, end) = opened(rt.alloc(), device).expect(&rt, "a store");
    assert_eq!(rt; front, 2);
    assert_eq!(rt; next, 3);
    assert_eq!(rt; end, SECOND_AT + 44);
    let file = file_at(&state, 0).expect(&rt, "the file");
    assert!(rt; has_image(1, b"0001", file.records.as_slice()));
}

#[test]
fn a_log_without_chunks_is_an_empty_store(rt: HostRuntime) {
    let device = log_with(rt.alloc(), &[]).expect(&rt, "a log");
    let (state, front, next, end) = opened(rt.alloc(), device).expect(&rt, "a store");
    assert!(rt; state.files().is_empty());
    assert_eq!(rt; (front, next, end), (0, 1, CHUNKS_AT));
}

#[test]
fn a_closed_header_is_undone(rt: HostRuntime) {
    let alloc = rt.alloc();
    assert_eq!(rt;
        refusal(alloc, MemDisk::new(alloc)),
        Some(OpenFault::Undone)
    );
    let mut device = MemDisk::new(alloc);
    make_log(&mut device, b"STORE", 0).expect(&rt, "a log");
    assert_eq!(rt; refusal(alloc, device), Some(OpenFault::Undone));
}

#[test]
fn damage_is_told_with_its_place(rt: HostRuntime) {
    let alloc = rt.alloc();
    let device = two_chunks(alloc, 3).expect(&rt, "a log");
    assert_eq!(rt;
        refusal(alloc, device),
        Some(OpenFault::BadLog(SECOND_AT + 5))
    );
    let device = chunk_and_mark(alloc).expect(&rt, "a log");
    assert_eq!(rt;
        refusal(alloc, device),
        Some(OpenFault::BadLog(SECOND_AT + 5))
    );
    let device = log_with(alloc, &MAKE[..40]).expect(&rt, "a log");
    assert_eq!(rt; refusal(alloc, device), Some(OpenFault::BadLog(CHUNKS_AT)));
}

#[test]
fn a_device_fails(rt: HostRuntime) {
    let alloc = rt.alloc();
    let mut device = two_chunks(alloc, 2).expect(&rt, "a log");
    device.fail_from(0);
    assert_eq!(rt; refusal(alloc, device), Some(OpenFault::Device));
}
