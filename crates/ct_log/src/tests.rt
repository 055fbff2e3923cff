//! A log in memory: made, flushed, crashed in the middle of a flush, opened and read.

ghost use Rattle.std.specs.Prelude.{◌<◌, ◌+◌, length};

use crate::{FlushAt, Log, LogFault, Part, Start, is_id, make_log, open_gate, read_head};
use ct_disk::{Disk, DiskError, MemDisk};
use ct_items::NoMemory;
use std::alloc::Global;
use std::test::Fail;

// An open log with no chunks.
fn new_log<L: Disk + Drop>(alloc: Global, mut device: L) -> Result<Log<L>, DiskError> {
    make_log(&mut device, b"LOG", 7)?;
    open_gate(&mut device)?;
    Ok(Log::begin(alloc, device))
}

// Adds a group where there is room. Answers whether there was.
fn add<L: Disk>(log: &mut Log<L>, group: &[u8]) -> Result<bool, NoMemory>
    requires some { 0 < length group.now }
{
    if !log.has_room(group.len()) {
        return Ok(false);
    }
    log.append(group)?;
    log.ready()?;
    Ok(true)
}

// Makes a step of a flush where a group is not durable.
fn step<L: Disk>(log: &mut Log<L>) -> Result<Option<FlushAt>, DiskError> {
    if log.is_flushed() {
        return Ok(None);
    }
    let at = log.flush_step()?;
    Ok(Some(at))
}

// Makes this many steps of flushes, or fewer where each group is durable.
fn run<L: Disk>(log: &mut Log<L>, count: usize) -> Result<(), DiskError> {
    for _ in 0..count {
        step(log)?;
    }
    Ok(())
}

#[test]
fn a_flush_ends_in_four_steps(rt: HostRuntime) -> Result<(), Fail> {
    let mut log = new_log(rt.alloc(), MemDisk::new(rt.alloc()))?;
    add(&mut log, b"one")?;
    assert_eq!(rt; log.unflushed_len(), 3);
    assert_eq!(rt; step(&mut log)?, Some(FlushAt::Body));
    assert_eq!(rt; step(&mut log)?, Some(FlushAt::Sync));
    assert_eq!(rt; step(&mut log)?, Some(FlushAt::Gate));
    assert!(rt; !log.is_idle());
    assert_eq!(rt; step(&mut log)?, Some(FlushAt::Done));
    assert_eq!(rt; (log.durable(), log.next(), log.end()), (1, 2, 12296));
    Ok(())
}

#[test]
fn a_group_that_comes_meanwhile_goes_into_the_next_chunk(rt: HostRuntime) -> Result<(), Fail> {
    let mut log = new_log(rt.alloc(), MemDisk::new(rt.alloc()))?;
    assert!(rt; is_id(b"LOG"));
    assert!(rt; add(&mut log, b"one")?);
    run(&mut log, 1)?;
    assert!(rt; add(&mut log, b"two")?);
    run(&mut log, 8)?;
    let bytes = log.into_device();
    assert_eq!(rt;
        bytes.bytes().get(..41),
        Some(
            b"CTLOGONE\x01\0\0\0LOG\0\0\0\0\0\0\0\0\0\0\0\0\0\x07\0\0\0\0\0\0\0\x01\0\0\0\0".as_slice()
        )
    );
    assert_eq!(rt;
        bytes.bytes().get(12288..),
        Some(b"\x01\x03\0\0\0one\x01\x03\0\0\0two\0".as_slice())
    );
    Ok(())
}

#[test]
fn a_step_that_failed_is_made_again(rt: HostRuntime) -> Result<(), Fail> {
    let alloc = rt.alloc();
    let mut disk = MemDisk::new(alloc);
    disk.tear_at(10)?;
    disk.fail_at(12)?;
    let mut log = new_log(alloc, disk)?;
    add(&mut log, b"one")?;
    assert_eq!(rt; step(&mut log), Err(DiskError::Fault));
    assert_eq!(rt; step(&mut log)?, Some(FlushAt::Body));
    assert_eq!(rt; step(&mut log), Err(DiskError::Fault));
    run(&mut log, 3)?;
    assert!(rt; log.is_flushed());
    assert_eq!(rt;
        log.into_device().bytes().get(12288..),
        Some(b"\x01\x03\0\0\0one\0".as_slice())
    );
    Ok(())
}

// A log of the chunks `one` and `two`.
fn log_of_two(alloc: Global) -> Result<MemDisk, DiskError> {
    let mut log = new_log(alloc, MemDisk::new(alloc))?;
    add(&mut log, b"one")?;
    run(&mut log, 4)?;
    add(&mut log, b"two")?;
    run(&mut log, 4)?;
    Ok(log.into_device())
}

// A log of two chunks with other bytes at a place.
fn changed(alloc: Global, at: u64, bytes: &[u8]) -> Result<MemDisk, DiskError>
    requires { at + length bytes.now < 65536 }
{
    let mut disk = log_of_two(alloc)?;
    disk.write_at(at, bytes)?;
    Ok(disk)
}

#[test]
fn a_log_is_opened_and_gone_on_with(rt: HostRuntime) -> Result<(), Fail> {
    let alloc = rt.alloc();
    let Ok((mut log, head)) = Log::open(alloc, log_of_two(alloc)?) else {
        return Err(Fail::new("the log is not opened"));
    };
    assert_eq!(rt;
        (head.id.as_slice(), head.base, head.gate, head.start.place),
        (b"LOG".as_slice(), 7, true, 12288)
    );
    log.set_end(12304, 3);
    assert_eq!(rt; log.append(b"three")?, 3);
    run(&mut log, 4)?;
    assert_eq!(rt;
        log.into_device().bytes().get(12288..),
        Some(b"\x01\x03\0\0\0one\x01\x03\0\0\0two\x01\x05\0\0\0three\0".as_slice())
    );
    Ok(())
}

#[test]
fn the_open_cell_with_the_greater_sequence_counts(rt: HostRuntime) -> Result<(), Fail> {
    let alloc = rt.alloc();
    let cell = b"\x05\0\0\0\0\0\0\0\x08\x30\0\0\0\0\0\0\x02\0\0\0\0\0\0\0\x09\0\0\0\0\0\0\0\x01";
    let mut disk = changed(alloc, 8192, cell)?;
    let start = Start {
        sequence: 5,
        place: 12296,
        ordinal: 2,
        last: 9,
    };
    assert_eq!(rt; read_head(alloc, &mut disk)?.start, start);
    disk.write_at(4096, cell)?;
    disk.write_at(4096, &[4])?;
    assert_eq!(rt; read_head(alloc, &mut disk)?.start, start);
    disk.write_at(4096, &[6])?;
    assert_eq!(rt; read_head(alloc, &mut disk)?.start.sequence, 6);
    disk.write_at(4129, &[1])?;
    assert_eq!(rt;
        read_head(alloc, &mut disk).err(),
        Some(LogFault::Bad { at: 4096 })
    );
    Ok(())
}

// A log of a chunk of 70,000 bytes, which a window of the usual length does not hold, and a short one.
fn log_of_long(alloc: Global) -> Result<Log<MemDisk>, DiskError> {
    let mut log = new_log(alloc, MemDisk::new(alloc))?;
    add(&mut log, &[7; 70_000])?;
    run(&mut log, 4)?;
    add(&mut log, b"two")?;
    run(&mut log, 4)?;
    Ok(log)
}

#[test]
fn a_long_chunk_is_alone_in_a_window(rt: HostRuntime) -> Result<(), Fail> {
    let mut log = log_of_long(rt.alloc())?;
    let mut window = log.window(rt.alloc())?;
    let long = Part {
        from: 5,
        len: 70_000,
        next: 82_293,
    };
    assert_eq!(rt; log.find_from(&mut window, 12288)?, Some(long));
    assert_eq!(rt; window.bytes.as_slice().len(), 70_005);
    let last = log.find_from(&mut window, 82_293)?;
    assert_eq!(rt;
        last,
        Some(Part {
            from: 5,
            len: 3,
            next: 82_301
        })
    );
    Ok(())
}
