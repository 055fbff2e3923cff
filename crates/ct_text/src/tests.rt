//! Lines, numbers and spellings, each once.

use super::*;
use std::test::Fail;

#[test]
fn words_have_places(rt: HostRuntime) -> Result<(), Fail> {
    let words = split(rt.alloc(), b"  GET part  a\\0a\\4Fb ")?;
    let places: [(&[u8], usize); 3] = [(b"GET", 2), (b"part", 6), (b"a\nOb", 12)];
    assert_eq!(rt; words.as_slice().len(), places.len());
    for (word, (bytes, at)) in words.as_slice().iter().zip(places) {
        assert_eq!(rt; word.bytes.as_slice(), bytes);
        assert_eq!(rt; word.at, at);
    }
    Ok(())
}

#[test]
fn first_fault_has_its_place(rt: HostRuntime) {
    let faults: [(&[u8], usize); 5] = [
        (b"ADD part a\\0", 10),
        (b"A\tB", 1),
        (b"a\\", 1),
        (b"ab\\0g\\", 2),
        (b"\x7f", 0),
    ];
    for (line, at) in faults {
        assert_eq!(rt; split(rt.alloc(), line).err(), Some(SplitFault::Bad { at }));
    }
}

#[test]
fn numbers_are_decimal(rt: HostRuntime) {
    let numbers: [(&[u8], Option<u64>); 8] = [
        (b"0", Some(0)),
        (b"128", Some(128)),
        (b"18446744073709551615", Some(u64::MAX)),
        (b"18446744073709551616", None),
        (b"00", None),
        (b"+1", None),
        (b"1a", None),
        (b"", None),
    ];
    for (word, number) in numbers {
        assert_eq!(rt; read_number(word), number);
    }
}

#[test]
fn other_bytes_are_escaped(rt: HostRuntime) -> Result<(), Fail> {
    let mut text = [b'='].to_vec(rt.alloc())?;
    spell(b"a ~\\\x7f\xff", &mut text)?;
    assert_eq!(rt; text.as_slice(), b"=a\\20~\\5c\\7f\\ff".as_slice());
    Ok(())
}
