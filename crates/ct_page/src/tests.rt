//! Pages in and outside the grammar, and each call once.

use crate::{Header, PAGE_SIZE, Page, PageKind, set_position, u16_at, u64_at};

/// A record page's header with 7 in its position.
fn records(position: u64) -> Header {
    Header {
        kind: PageKind::Records,
        file: 3,
        index: 65535,
        count: 2,
        position,
        right: 0,
        key_len: 0,
    }
}

#[test]
fn a_written_header_is_read(rt: HostRuntime) {
    let mut page = [0; PAGE_SIZE];
    records(7).write(&mut page);
    assert_eq!(rt;
        &page[..16],
        [4, 0, 3, 0, 255, 255, 2, 0, 7, 0, 0, 0, 0, 0, 0, 0].as_slice()
    );
    let view = Page::read(&page).expect(&rt, "a page");
    assert_eq!(rt; view.kind, 4);
    assert_eq!(rt; view.file, 3);
    assert_eq!(rt; view.position, 7);
    assert_eq!(rt; view.body.len(), 3968);
}

#[test]
fn a_page_of_no_kind_is_none(rt: HostRuntime) {
    let mut page = [0; PAGE_SIZE];
    page[0] = 9;
    assert!(rt; Page::read(&page).is_none());
    assert_eq!(rt; PageKind::from_number(9), None);
}

#[test]
fn a_byte_in_the_unused_part_is_outside(rt: HostRuntime) {
    for at in [1, 25, 127] {
        let mut page = [0; PAGE_SIZE];
        records(7).write(&mut page);
        page[at] = 1;
        assert!(rt; Page::read(&page).is_none(), "at {at}");
    }
}

#[test]
fn a_page_not_written_yet_is_all_zeros(rt: HostRuntime) {
    let mut page = [0; PAGE_SIZE];
    assert!(rt; Page::read(&page).is_some());
    page[4095] = 1;
    assert!(rt; Page::read(&page).is_none());
}

#[test]
fn a_position_is_set_alone(rt: HostRuntime) {
    let mut page = [0; PAGE_SIZE];
    records(7).write(&mut page);
    set_position(&mut page, 258);
    assert_eq!(rt;
        &page[..16],
        [4, 0, 3, 0, 255, 255, 2, 0, 2, 1, 0, 0, 0, 0, 0, 0].as_slice()
    );
    assert_eq!(rt; u64_at(&page, 8), 258);
    assert_eq!(rt; u16_at(&page, 2), 3);
}
