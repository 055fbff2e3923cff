//! Record pages as bytes, and each call once.

ghost use Rattle.std.specs.Prelude.{◌≡◌, ◌%◌};
ghost use Rattle.ct_slots.specs.Pages.{with_rows, with_slot};

use crate::Slots;
use ct_page::PAGE_SIZE;
use std::process::Abort;

/// Puts an image under a number, where there is room for it beside what is there.
fn put(rt: &impl Abort, slots: &mut Slots, num: u64, image: &[u8])
    ensures { slots.new ≡ with_rows (with_slot (num % 128) image.now slots.old.rows) slots.old }
{
    assert!(rt; image.len() <= 4096);
    assert!(rt; image.len() + 8 <= slots.room());
    slots.set(num, image);
}

#[test]
fn records_use_their_images_and_eight(rt: HostRuntime) {
    let mut slots = Slots::new(0);
    put(&rt, &mut slots, 1, &[1; 3840]);
    assert_eq!(rt; slots.room(), 120);
    put(&rt, &mut slots, 2, &[2; 112]);
    assert_eq!(rt; slots.room(), 0);
    slots.clear(1);
    assert_eq!(rt; slots.room(), 3848);
}

#[test]
fn records_stand_by_number_with_the_first_image_last(rt: HostRuntime) {
    let mut slots = Slots::new(3);
    put(&rt, &mut slots, 130, b"cd");
    put(&rt, &mut slots, 129, b"b");
    let mut page = [0; PAGE_SIZE];
    slots.to_page(&mut page);
    assert_eq!(rt; &page[..8], [4, 0, 3, 0, 255, 255, 2, 0].as_slice());
    assert_eq!(rt; &page[128..136], [1, 0, 255, 15, 1, 0, 0, 0].as_slice());
    assert_eq!(rt; &page[136..144], [2, 0, 253, 15, 2, 0, 0, 0].as_slice());
    assert_eq!(rt; &page[4093..], b"cdb".as_slice());
}

#[test]
fn an_image_is_replaced(rt: HostRuntime) {
    let mut slots = Slots::new(0);
    put(&rt, &mut slots, 5, b"first");
    put(&rt, &mut slots, 7, b"other");
    put(&rt, &mut slots, 5, b"a longer one");
    let image = slots.get(5).expect(&rt, "an image");
    assert_eq!(rt; image, b"a longer one".as_slice());
    slots.clear(5);
    assert!(rt; slots.get(5).is_none());
}

#[test]
fn a_page_is_read_as_it_was_written(rt: HostRuntime) {
    let mut slots = Slots::new(0);
    put(&rt, &mut slots, 5, b"image");
    let mut page = [0; PAGE_SIZE];
    slots.to_page(&mut page);
    let read = Slots::from_page(&page).expect(&rt, "a record page");
    let image = read.get(5).expect(&rt, "an image");
    assert_eq!(rt; image, b"image".as_slice());
}

#[test]
fn pages_outside_the_grammar_are_none(rt: HostRuntime) {
    let mut slots = Slots::new(0);
    put(&rt, &mut slots, 5, b"image");
    for (at, byte) in [
        (0, 3),
        (4, 0),
        (16, 1),
        (24, 8),
        (128, 128),
        (134, 1),
        (136, 1),
        (130, 0),
    ] {
        let mut page = [0; PAGE_SIZE];
        slots.to_page(&mut page);
        page[at % PAGE_SIZE] = byte;
        assert!(rt; Slots::from_page(&page).is_none(), "at {at}");
    }
}
