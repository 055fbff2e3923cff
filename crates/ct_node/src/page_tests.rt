//! Pages by their bytes: nodes with as many entries as there is room for, and pages that are none.

use super::*;
use ct_page::PAGE_SIZE;

/// A page with so many entries: keys of zeros, the numbers 0, 1, and so on, and pages below that are 0.
fn page_of(kind: u8, key_len: u8, count: u16) -> [u8; PAGE_SIZE] {
    let mut page = [0; PAGE_SIZE];
    page[0] = kind;
    page[6] = count.to_le_bytes()[0];
    page[7] = count.to_le_bytes()[1];
    page[24] = key_len;
    let key_len = usize::from(key_len);
    let width = key_len + 8 + 8 * usize::from(kind.saturating_sub(5));
    let mut number_at = 146 + 3 * key_len + 6;
    for number in 0..count {
        if number_at + 2 > PAGE_SIZE {
            return page;
        }
        page[number_at] = number.to_be_bytes()[0];
        page[number_at + 1] = number.to_be_bytes()[1];
        number_at += width;
    }
    page
}

#[test]
fn a_page_has_as_many_entries_as_there_is_room_for(rt: HostRuntime) {
    for (kind, key_len, count, is_node) in [
        (5, 4, 328, true),
        (5, 4, 329, false),
        (6, 4, 197, true),
        (6, 4, 198, false),
        (5, 128, 27, true),
        (5, 128, 28, false),
        (6, 128, 25, true),
        (6, 128, 26, false),
        (5, 129, 0, false),
        (5, 0, 0, false),
        (4, 4, 0, false),
    ] {
        let node = Node::from_page(&page_of(kind, key_len, count));
        assert_eq!(rt; node.is_some(), is_node, "{kind} {key_len} {count}");
    }
}

#[test]
fn an_inner_node_has_its_pages_below(rt: HostRuntime) {
    let mut page = page_of(6, 4, 1);
    page[166] = 2;
    page[167] = 1;
    let node = Node::from_page(&page).expect(&rt, "a node");
    assert_eq!(rt; node.next_place(&Target::First), Place::Down(258));
    assert_eq!(rt; node.begins_at_low(), true);
    page[165] = 1;
    let other = Node::from_page(&page).expect(&rt, "a node");
    assert_eq!(rt; other.begins_at_low(), false);
}

#[test]
fn a_damaged_page_is_none(rt: HostRuntime) {
    let whole = page_of(5, 4, 2);
    assert!(rt; Node::from_page(&whole).is_some());
    for (at, byte) in [
        (1, 1),
        (6, 1),
        (6, 3),
        (24, 3),
        (128, 2),
        (129, 1),
        (140, 1),
        (141, 1),
        (165, 1),
        (178, 1),
        (4095, 1),
    ] {
        let mut page = whole;
        page[at % PAGE_SIZE] = byte;
        assert!(rt; Node::from_page(&page).is_none(), "at {at}");
    }
}
