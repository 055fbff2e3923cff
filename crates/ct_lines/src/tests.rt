//! Lines read off inputs: what ends them, and the longest.

use crate::{Held, first_line};
use std::alloc::{AllocError, Global};
use std::test::Fail;

// the first line of an input, which is its last where no line ends
fn line_of<'a>(held: &'a mut Held, input: &[u8]) -> Option<&'a [u8]> {
    held.clear();
    match first_line(input) {
        Some((line, _)) => {
            held.hold(line);
            held.ended()
        }
        None => {
            held.hold(input);
            held.unfinished()
        }
    }
}

// whether there is a line, and it is this one
fn is_line(found: Option<&[u8]>, line: &[u8]) -> bool {
    match found {
        Some(found) => found == line,
        None => false,
    }
}

// whether this is the first line of the input
fn begins_with_line(held: &mut Held, input: &[u8], line: &[u8]) -> bool {
    is_line(line_of(held, input), line)
}

#[test]
fn a_line_ends_with_a_feed_or_the_input(rt: HostRuntime) -> Result<(), Fail> {
    let mut held = Held::new(rt.alloc())?;
    let inputs = [
        ("ab\n", "ab"),
        ("ab\r\n", "ab"),
        ("ab\r\r\n", "ab\r"),
        ("a\rb\n", "a\rb"),
        ("ab\ncd\n", "ab"),
        ("\r\n", ""),
        ("ab", "ab"),
        ("ab\r", "ab\r"),
    ];
    for (input, line) in inputs {
        let is_so = begins_with_line(&mut held, input.as_bytes(), line.as_bytes());
        assert!(rt; is_so, "of {input:?}");
    }
    Ok(())
}

// how long the line of so many bytes and this end is, where it is not too long
fn len_of(
    held: &mut Held,
    alloc: Global,
    len: usize,
    end: &[u8],
) -> Result<Option<usize>, AllocError> {
    let mut input = vec![in alloc; b'x'; len]?;
    input.extend_from_slice(end)?;
    match line_of(held, input.as_slice()) {
        Some(line) => Ok(Some(line.len())),
        None => Ok(None),
    }
}

#[test]
fn the_longest_line_has_16384_bytes(rt: HostRuntime) -> Result<(), Fail> {
    let mut held = Held::new(rt.alloc())?;
    let lines = [
        (16384, "\n", Some(16384)),
        (16384, "\r\n", Some(16384)),
        (16384, "", Some(16384)),
        (16384, "\r", None),
        (16385, "\n", None),
        (16385, "\r\n", None),
        (16385, "", None),
        (3, "\n", Some(3)),
    ];
    for (len, end, wanted) in lines {
        let found = len_of(&mut held, rt.alloc(), len, end.as_bytes())?;
        assert_eq!(rt; found, wanted, "{len} and {end:?}");
    }
    Ok(())
}

#[test]
fn a_line_comes_in_pieces(rt: HostRuntime) -> Result<(), Fail> {
    let mut held = Held::new(rt.alloc())?;
    assert!(rt; !held.is_within_line());
    held.hold(b"a");
    held.hold(b"b\r");
    assert!(rt; held.is_within_line());
    assert!(rt; is_line(held.ended(), b"ab"));
    assert!(rt; is_line(held.unfinished(), b"ab\r"));
    Ok(())
}

#[test]
fn what_follows_the_feed_is_left(rt: HostRuntime) {
    let parts = first_line(b"ab\r\ncd\n");
    assert_eq!(rt; parts, Some((b"ab\r".as_slice(), b"cd\n".as_slice())));
    assert_eq!(rt; first_line(b"ab\r"), None);
}
