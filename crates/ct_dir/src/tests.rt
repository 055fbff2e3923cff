//! Each call once.

use crate::{
    MapEntry, add_file, block, entry_count, file_count, file_page, first_leaf, first_map,
    is_definition_page, is_directory_page, is_map_page, page_count, root, set_block,
    set_first_leaf, set_first_map, set_page_count, set_root,
};
use ct_page::{Header, NO_FILE, NO_INDEX, PAGE_SIZE, PageKind};

#[test]
fn a_directory_tells_its_files(rt: HostRuntime) {
    let mut page = [0; PAGE_SIZE];
    set_page_count(&mut page, 5);
    assert_eq!(rt; file_count(&page), 0);
    add_file(&mut page, 1);
    add_file(&mut page, 4);
    assert_eq!(rt; page_count(&page), 5);
    assert_eq!(rt; file_page(&page, 0), Some(1));
    assert_eq!(rt; file_page(&page, 1), Some(4));
    assert_eq!(rt; file_page(&page, 2), None);
}

#[test]
fn a_definition_page_tells_where_its_file_begins(rt: HostRuntime) {
    let mut page = [0; PAGE_SIZE];
    set_first_map(&mut page, 20, 2);
    set_root(&mut page, 20, 1, 7);
    set_first_leaf(&mut page, 20, 1, 9);
    assert_eq!(rt; first_map(&page, 20), 2);
    assert_eq!(rt; root(&page, 20, 1), 7);
    assert_eq!(rt; first_leaf(&page, 20, 1), 9);
    assert_eq!(rt;
        &page[172..188],
        [7, 0, 0, 0, 0, 0, 0, 0, 9, 0, 0, 0, 0, 0, 0, 0].as_slice()
    );
}

#[test]
fn the_last_entry_makes_a_map_page_whole(rt: HostRuntime) {
    let mut page = [0; PAGE_SIZE];
    let entry = MapEntry {
        page: 3,
        used: 3968,
    };
    set_block(&mut page, 395, entry);
    assert_eq!(rt; entry_count(&page), 396);
    assert_eq!(rt; block(&page, 395), Some(entry));
    set_block(&mut page, 2, entry);
    assert_eq!(rt; entry_count(&page), 396);
    assert_eq!(rt; block(&page, 1), Some(MapEntry { page: 0, used: 0 }));
}

/// An empty page of this kind and file.
fn empty(kind: PageKind, file: u16) -> [u8; PAGE_SIZE] {
    let mut page = [0; PAGE_SIZE];
    let header = Header {
        kind,
        file,
        index: NO_INDEX,
        count: 0,
        position: 9,
        right: 0,
        key_len: 0,
    };
    header.write(&mut page);
    page
}

#[test]
fn each_kind_has_its_own_pages(rt: HostRuntime) {
    let mut directory = empty(PageKind::Directory, NO_FILE);
    if file_count(&directory) < 256 {
        add_file(&mut directory, 1);
    }
    assert_eq!(rt; is_directory_page(&directory), true);
    assert_eq!(rt; is_directory_page(&empty(PageKind::Directory, 0)), false);
    let mut definition = empty(PageKind::Definition, 0);
    set_first_map(&mut definition, 20, 7);
    assert_eq!(rt; is_definition_page(&definition, 20), true);
    assert_eq!(rt; is_definition_page(&definition, 12), false);
    let mut map = empty(PageKind::SpaceMap, 0);
    set_block(&mut map, 0, MapEntry { page: 3, used: 9 });
    assert_eq!(rt; is_map_page(&map), true);
    map[138] = 1;
    assert_eq!(rt; is_map_page(&map), false);
    assert_eq!(rt; is_map_page(&definition), false);
}
