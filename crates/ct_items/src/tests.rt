//! Each call once, where there is memory.

use crate::{Items, NoMemory};
use std::alloc::AllocError;

#[test]
fn items_are_put_in_their_place(rt: HostRuntime) {
    let mut items = Items::from_slice(rt.alloc(), b"ac").expect(&rt, "a copy");
    items.insert(1, b'b').expect(&rt, "an item between");
    items.push(b'd').expect(&rt, "an item behind");
    items.extend_from_slice(b"ef").expect(&rt, "two more");
    assert_eq!(rt; items.as_slice(), b"abcdef".as_slice());
}

#[test]
fn items_are_taken_out(rt: HostRuntime) {
    let mut items = Items::from_slice(rt.alloc(), b"abc").expect(&rt, "a copy");
    assert_eq!(rt; items.remove(0), b'a');
    assert_eq!(rt; items.replace(1, b'z'), b'c');
    assert_eq!(rt; items.as_slice(), b"bz".as_slice());
}

fn is_equal_to_its_clone<T: Clone + PartialEq + Drop>(original: &T) -> Result<bool, AllocError> {
    let copy = original.clone()?;
    Ok(copy == *original)
}

#[test]
fn items_are_cloned_and_compared(rt: HostRuntime) {
    let mut items: Items<u8> = Items::new(rt.alloc());
    assert_eq!(rt; is_equal_to_its_clone(&items), Ok(true));
    items.push(b'a').expect(&rt, "an item");
    assert_eq!(rt; is_equal_to_its_clone(&items), Ok(true));
    assert!(rt; items != Items::new(rt.alloc()));
}

#[test]
fn a_vector_is_handed_over_and_back(rt: HostRuntime) {
    let items = Items::from_vec(Vec::from_slice(rt.alloc(), b"ab").expect(&rt, "a copy"));
    assert_eq!(rt; items.into_vec().as_slice(), b"ab".as_slice());
}

#[test]
fn each_refusal_is_want_of_memory(rt: HostRuntime) {
    assert_eq!(rt; NoMemory::from(AllocError), NoMemory);
    let words = format!(in rt.alloc(); "{NoMemory}").expect(&rt, "a text");
    assert_eq!(rt; words.as_str(), "out of memory");
}
