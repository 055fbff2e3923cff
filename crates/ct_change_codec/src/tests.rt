//! Changes and definitions on known bytes.
use super::*;
use ct_codec::ReadFault;
use ct_definitions::Change;
use ct_items::Items;
use std::test::*;

// Add to file 0 under number 1 the image 0001.
const ADD: [u8; 19] = [2, 0, 0, 1, 0, 0, 0, 0, 0, 0, 0, 4, 0, 0, 0, 48, 48, 48, 49];

// Make file 0, A, of images of 4 bytes, with the index K over all 4 bytes.
const MAKE: [u8; 27] = [
    1, 0, 0, 1, 65, 0, 4, 0, 0, 0, 4, 0, 0, 0, 1, 1, 75, 0, 0, 0, 1, 0, 0, 4, 0, 0, 0,
];

#[test]
fn adds_are_written(rt: HostRuntime) -> Result<(), Fail> {
    let new = Items::from_slice(rt.alloc(), &[48, 48, 48, 49])?;
    let change = Change::Add {
        file: 0,
        num: 1,
        new,
    };
    let mut bytes = Vec::new(rt.alloc());
    write_change(&change, &mut bytes)?;
    assert_eq!(rt; bytes.as_slice(), ADD.as_slice());
    Ok(())
}

#[test]
fn adds_are_read(rt: HostRuntime) -> Result<(), Fail> {
    let (change, len) = read_change(rt.alloc(), &ADD)?;
    assert_eq!(rt; len, 19);
    match change {
        Change::Add {
            file: 0,
            num: 1,
            new,
        } => assert_eq!(rt; new.as_slice(), [48, 48, 48, 49].as_slice()),
        _ => assert!(rt; false, "it is an Add"),
    }
    Ok(())
}

#[test]
fn makes_come_back(rt: HostRuntime) -> Result<(), Fail> {
    let (change, len) = read_change(rt.alloc(), &MAKE)?;
    assert_eq!(rt; len, 27);
    formats_are_exact();
    let mut bytes = Vec::new(rt.alloc());
    write_change(&change, &mut bytes)?;
    assert_eq!(rt; bytes.as_slice(), MAKE.as_slice());
    Ok(())
}

#[test]
fn definitions_come_back(rt: HostRuntime) -> Result<(), Fail> {
    let (def, len) = read_definition(rt.alloc(), &MAKE[3..])?;
    assert_eq!(rt; len, 24);
    formats_are_exact();
    let mut bytes = Vec::new(rt.alloc());
    write_definition(&def, &mut bytes)?;
    assert_eq!(rt; bytes.as_slice(), &MAKE[3..]);
    Ok(())
}

#[test]
fn places_are_told(rt: HostRuntime) {
    assert!(rt;
        matches!(
            read_change(rt.alloc(), &ADD[..18]),
            Err(ReadFault::Bad { at: 18 })
        )
    );
    assert!(rt;
        matches!(
            read_change(rt.alloc(), &MAKE[1..]),
            Err(ReadFault::Bad { at: 0 })
        )
    );
}
