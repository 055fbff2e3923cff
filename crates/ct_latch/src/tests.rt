//! One node and three operations, and operations with several nodes.

use super::*;

const LEAF: u64 = 7;

const NEXT: u64 = 9;

const FIRST: u64 = 3;

#[test]
fn a_node_is_shared_or_held_by_one(rt: HostRuntime) -> Result<(), NoMemory> {
    let mut latches = Latches::new(rt.alloc());
    latches.reserve(5)?;
    assert_eq!(rt; latches.try_share(LEAF, 2).is_ok(), true);
    assert_eq!(rt; latches.try_share(LEAF, 1).is_ok(), true);
    assert_eq!(rt; latches.try_own(LEAF, 3), Err(Held { op: 1 }));
    latches.release(LEAF, 1);
    assert_eq!(rt; latches.try_own(LEAF, 2).is_ok(), true);
    assert_eq!(rt; latches.try_share(LEAF, 1), Err(Held { op: 2 }));
    assert_eq!(rt; latches.holds().len(), 1);
    Ok(())
}

#[test]
fn all_of_an_operation_is_given_back(rt: HostRuntime) -> Result<(), NoMemory> {
    let mut latches = Latches::new(rt.alloc());
    latches.reserve(5)?;
    assert_eq!(rt; latches.try_own(NEXT, 1).is_ok(), true);
    assert_eq!(rt; latches.try_share(LEAF, 2).is_ok(), true);
    assert_eq!(rt; latches.try_own(FIRST, 1).is_ok(), true);
    latches.release_all(1);
    assert_eq!(rt; latches.try_own(NEXT, 2).is_ok(), true);
    assert_eq!(rt; latches.try_share(FIRST, 3).is_ok(), true);
    assert_eq!(rt; latches.holds().len(), 3);
    Ok(())
}
