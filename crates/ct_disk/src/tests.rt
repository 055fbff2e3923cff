//! Each public call once, through the trait where it has one.

ghost use Rattle.std.specs.Prelude.{◌≤◌, length};

use crate::{Disk, DiskError, MemDisk, write_through};
use std::alloc::Global;
use std::test::Fail;

// Calls 1 to 5: a write, its sync, a read, a cut and a look at the length.
fn exercise<D: Disk>(disk: &mut D, into: &mut [u8]) -> Result<(usize, u64), DiskError>
    requires { length into.old ≤ 4096 }
{
    write_through(disk, 2, b"abc")?;
    let count = disk.read(3, into)?;
    disk.cut(4)?;
    let len = disk.len()?;
    Ok((count, len))
}

fn write_over<D: Disk>(disk: &mut D) -> Result<(), DiskError> {
    disk.write_at(2, b"XY")
}

// "stable", of which "ab" was written over and not synced.
fn half_synced(alloc: Global) -> Result<MemDisk, DiskError> {
    let mut disk = MemDisk::of(alloc, b"stable")?;
    write_over(&mut disk)?;
    Ok(disk)
}

// A device is handed from one thread to another.
fn crosses<T: Send>(_device: &T) {}

#[test]
fn calls_do_what_they_say(rt: HostRuntime) -> Result<(), Fail> {
    let mut disk = MemDisk::new(rt.alloc());
    let mut into = [7; 4];
    crosses(&disk);
    let (count, len) = exercise(&mut disk, &mut into)?;
    assert_eq!(rt; count, 2);
    assert_eq!(rt; len, 4);
    assert_eq!(rt; into.as_slice(), b"bc\x07\x07".as_slice());
    assert_eq!(rt; disk.bytes(), b"\0\0ab".as_slice());
    Ok(())
}

#[test]
fn a_crash_leaves_the_image_that_is_picked(rt: HostRuntime) -> Result<(), Fail> {
    let alloc = rt.alloc();
    assert_eq!(rt; half_synced(alloc)?.crash(0)?.bytes(), b"stable".as_slice());
    assert_eq!(rt; half_synced(alloc)?.crash(1)?.bytes(), b"stXYle".as_slice());
    let second = half_synced(alloc)?.crash(2)?;
    let third = half_synced(alloc)?.crash(3)?;
    assert_ne!(rt; second.bytes(), third.bytes());
    Ok(())
}

#[test]
fn a_synced_disk_has_one_image(rt: HostRuntime) -> Result<(), Fail> {
    let mut disk = half_synced(rt.alloc())?;
    disk.sync()?;
    assert_eq!(rt; disk.crash(2)?.bytes(), b"stXYle".as_slice());
    Ok(())
}

// One write, one sync, as far as they come.
fn write_and_sync<D: Disk>(disk: &mut D) -> Result<(), DiskError> {
    write_through(disk, 0, b"abcd")
}

#[test]
fn a_call_that_is_to_fail_changes_nothing(rt: HostRuntime) -> Result<(), Fail> {
    let mut disk = MemDisk::of(rt.alloc(), b"----")?;
    disk.fail_at(1)?;
    assert_eq!(rt; write_and_sync(&mut disk), Err(DiskError::Fault));
    assert_eq!(rt; disk.bytes(), b"----".as_slice());
    Ok(())
}

#[test]
fn a_write_that_is_to_tear_is_made_in_half(rt: HostRuntime) -> Result<(), Fail> {
    let mut disk = MemDisk::of(rt.alloc(), b"----")?;
    disk.tear_at(1)?;
    assert_eq!(rt; write_and_sync(&mut disk), Err(DiskError::Fault));
    assert_eq!(rt; disk.bytes(), b"ab--".as_slice());
    Ok(())
}

#[test]
fn calls_fail_from_a_number_on(rt: HostRuntime) -> Result<(), Fail> {
    let mut disk = MemDisk::of(rt.alloc(), b"----")?;
    disk.fail_from(2);
    assert_eq!(rt; write_and_sync(&mut disk), Err(DiskError::Fault));
    assert_eq!(rt; disk.bytes(), b"abcd".as_slice());
    Ok(())
}
