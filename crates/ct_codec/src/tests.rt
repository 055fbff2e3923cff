//! The basic fields on known bytes.
use super::*;
use std::test::*;

#[test]
fn writes_numbers(rt: HostRuntime) -> Result<(), Fail> {
    let mut bytes = Vec::new(rt.alloc());
    write_u8(2, &mut bytes)?;
    write_u16(0, &mut bytes)?;
    write_u64(1, &mut bytes)?;
    write_u32(4, &mut bytes)?;
    assert_eq!(rt;
        bytes.as_slice(),
        [2, 0, 0, 1, 0, 0, 0, 0, 0, 0, 0, 4, 0, 0, 0].as_slice()
    );
    Ok(())
}

#[test]
fn writes_blocks(rt: HostRuntime) -> Result<(), Fail> {
    let mut bytes = Vec::new(rt.alloc());
    write_flag(true, &mut bytes)?;
    write_bytes(&[7], &mut bytes)?;
    write_sized_u8(&[48], &mut bytes)?;
    write_sized_u32(&[49], &mut bytes)?;
    assert_eq!(rt; bytes.as_slice(), [1, 7, 1, 48, 1, 0, 0, 0, 49].as_slice());
    Ok(())
}

#[test]
fn reads_numbers(rt: HostRuntime) {
    assert!(rt; matches!(read_u8(&[2]), Ok((2, []))));
    assert!(rt; matches!(read_u16(&[1, 2, 9]), Ok((513, [9]))));
    assert!(rt; matches!(read_u32(&[4, 0, 0, 1]), Ok((16_777_220, []))));
    assert!(rt;
        matches!(
            read_u64(&[1, 0, 0, 0, 0, 1, 0, 0]),
            Ok((1_099_511_627_777, []))
        )
    );
    assert!(rt; matches!(read_flag(&[1]), Ok((true, []))));
    basic_formats_are_exact();
}

#[test]
fn reads_blocks(rt: HostRuntime) -> Result<(), Fail> {
    assert!(rt; matches!(read_bytes(1, &[7, 8]), Ok(([7], [8]))));
    let (short, _rest) = read_sized_u8(rt.alloc(), &[1, 48])?;
    assert_eq!(rt; short.as_slice(), [48].as_slice());
    let (long, _rest) = read_sized_u32(rt.alloc(), &[1, 0, 0, 0, 49])?;
    assert_eq!(rt; long.as_slice(), [49].as_slice());
    Ok(())
}

#[test]
fn tells_places(rt: HostRuntime) {
    assert!(rt; matches!(front_of(&[2, 7], Ok((true, &[7]))), Ok((true, 1))));
    assert!(rt;
        matches!(
            front_of::<u8>(&[2, 7, 9], Err(Fault::Bad(2))),
            Err(ReadFault::Bad { at: 1 })
        )
    );
}
