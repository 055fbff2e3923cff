//! A folder as a shelf, with real files.
//! What stands beside the folder is never reached by a name.

use crate::FolderShelf;
use ct_disk::Disk;
use ct_shelf::{Shelf, ShelfRefusal};
use std::test::Fail;
use std::{env, fs, process};

fn make_on<S: Shelf>(shelf: &mut S, name: &[u8]) -> Result<S::D, ShelfRefusal> {
    shelf.make(name)
}

fn find_on<S: Shelf>(shelf: &mut S, name: &[u8]) -> Result<S::D, ShelfRefusal> {
    shelf.find(name)
}

fn back_to<S: Shelf>(shelf: &mut S, name: &[u8], device: S::D) {
    shelf.give_back(name, device)
}

#[test]
fn devices_are_files_of_the_folder(rt: HostRuntime) -> Result<(), Fail> {
    let id = process::id(rt.process());
    let folder = format!(in rt.alloc(); "ct_file_shelf_{id}")?;
    let path = env::temp_dir(&rt)?.join(rt.alloc(), folder.as_str())?;
    let mut shelf = FolderShelf::open(&rt, rt.alloc(), path.as_str())?;
    let mut other = FolderShelf::open(&rt, rt.alloc(), path.as_str())?;
    let mut night = make_on(&mut shelf, b"night")?;
    night.write_at(0, b"abc")?;
    assert_eq!(rt;
        make_on(&mut other, b"night").err(),
        Some(ShelfRefusal::Exists)
    );
    assert_eq!(rt;
        find_on(&mut other, b"night").err(),
        Some(ShelfRefusal::Missing)
    );
    back_to(&mut shelf, b"night", night);
    let mut found = find_on(&mut other, b"night")?;
    assert_eq!(rt; found.len(), Ok(3));
    assert_eq!(rt;
        find_on(&mut shelf, b"night").err(),
        Some(ShelfRefusal::Missing)
    );
    drop(found);
    let names: [&[u8]; 6] = [b"", b".", b"..", b"../night", b"a/b", b"a\0b"];
    for name in names {
        assert_eq!(rt; make_on(&mut shelf, name).err(), Some(ShelfRefusal::Exists));
        assert_eq!(rt;
            find_on(&mut shelf, name).err(),
            Some(ShelfRefusal::Missing)
        );
    }
    fs::remove_dir_all(&rt, path.as_str())?;
    Ok(())
}
