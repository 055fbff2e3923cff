//! A device's way: made, given back, found, and away in between.

use super::*;
use ct_disk::Disk;
use std::test::Fail;

/// Makes a device, and tells its length.
fn make_on<S: Shelf>(shelf: &mut S, name: &[u8]) -> Result<S::D, ShelfRefusal> {
    shelf.make(name)
}

fn find_on<S: Shelf>(shelf: &mut S, name: &[u8]) -> Result<S::D, ShelfRefusal> {
    shelf.find(name)
}

fn back_to<S: Shelf>(shelf: &mut S, name: &[u8], device: S::D) {
    shelf.give_back(name, device)
}

fn refusal<T>(answer: Result<T, ShelfRefusal>) -> Option<ShelfRefusal>
where
    T: Drop,
{
    answer.err()
}

#[test]
fn devices_are_lent_and_come_back(rt: HostRuntime) -> Result<(), Fail> {
    let mut shelf = MemShelf::new(rt.alloc());
    let mut night = make_on(&mut shelf, b"night")?;
    night.write_at(0, b"abc")?;
    assert_eq!(rt;
        refusal(make_on(&mut shelf, b"night")),
        Some(ShelfRefusal::Exists)
    );
    assert_eq!(rt;
        refusal(find_on(&mut shelf, b"night")),
        Some(ShelfRefusal::Missing)
    );
    back_to(&mut shelf, b"night", night);
    assert_eq!(rt;
        refusal(make_on(&mut shelf, b"night")),
        Some(ShelfRefusal::Exists)
    );
    let found = find_on(&mut shelf, b"night")?;
    assert_eq!(rt; found.bytes(), b"abc".as_slice());
    assert_eq!(rt;
        refusal(find_on(&mut shelf, b"other")),
        Some(ShelfRefusal::Missing)
    );
    Ok(())
}

#[test]
fn planned_calls_fail_once(rt: HostRuntime) -> Result<(), Fail> {
    let mut shelf = MemShelf::new(rt.alloc());
    shelf.fail_at(1)?;
    assert_eq!(rt;
        refusal(make_on(&mut shelf, b"night")),
        Some(ShelfRefusal::Fault)
    );
    let night = make_on(&mut shelf, b"night")?;
    back_to(&mut shelf, b"night", night);
    shelf.fail_at(3)?;
    assert_eq!(rt;
        refusal(find_on(&mut shelf, b"night")),
        Some(ShelfRefusal::Fault)
    );
    assert!(rt; find_on(&mut shelf, b"night").is_ok());
    Ok(())
}
