//! A store of one file through its changes, and what is valid, each call once.

use super::*;
use ct_items::{Items, NoMemory};
use std::alloc::Global;

fn code_index(alloc: Global) -> Result<IndexDef, NoMemory> {
    let mut segs = Segs::new(alloc);
    segs.push(Seg {
        at: 0,
        len: 2,
        mode: Mode::Ureg,
        desc: false,
    })?;
    Ok(IndexDef {
        name: Items::from_slice(alloc, b"code")?,
        unique: true,
        null: None,
        segs,
    })
}

fn parts(alloc: Global, kind: Kind) -> Result<FileDef, NoMemory> {
    let mut indexes = Indexes::new(alloc);
    indexes.push(code_index(alloc)?)?;
    Ok(FileDef {
        name: Items::from_slice(alloc, b"parts")?,
        kind,
        indexes,
    })
}

fn add(alloc: Global, num: u64, image: &[u8]) -> Result<Change, NoMemory> {
    let new = Items::from_slice(alloc, image)?;
    Ok(Change::Add { file: 0, num, new })
}

fn apply_add(alloc: Global, state: &mut State, num: u64, image: &[u8]) -> Result<(), Refused> {
    let change = add(alloc, num, image)?;
    apply(alloc, state, change)
}

// a file of images of 2 to 3,840 bytes with one record
fn one_record(alloc: Global, image: &[u8]) -> Result<State, Refused> {
    let mut state = State::new(alloc);
    let def = parts(alloc, Kind::Variable { min: 2, max: 3840 })?;
    apply(alloc, &mut state, Change::Make { file: 0, def })?;
    apply_add(alloc, &mut state, 1, image)?;
    Ok(state)
}

#[test]
fn files_and_indexes_have_names(rt: HostRuntime) {
    let state = one_record(rt.alloc(), b"ab").expect(&rt, "a record is added");
    assert!(rt; has_name(&state, b"parts"));
    assert_eq!(rt; file_named(&state, b"parts"), Some(0));
    assert_eq!(rt; file_named(&state, b"part"), None);
    let file = file_at(&state, 0).expect(&rt, "there is a file");
    assert_eq!(rt; index_named(&file.def, b"code"), Some(0));
}

#[test]
fn a_key_is_kept_once(rt: HostRuntime) {
    let mut state = one_record(rt.alloc(), b"ab").expect(&rt, "a record is added");
    assert_eq!(rt;
        apply_add(rt.alloc(), &mut state, 2, b"AB1"),
        Err(Refused::NotDefined)
    );
    assert_eq!(rt;
        apply_add(rt.alloc(), &mut state, 1, b"cd"),
        Err(Refused::NotDefined)
    );
    assert_eq!(rt; apply_add(rt.alloc(), &mut state, 2, b"cd"), Ok(()));
}

#[test]
fn a_record_is_rewritten_and_deleted(rt: HostRuntime) {
    let alloc = rt.alloc();
    let mut state = one_record(alloc, b"ab").expect(&rt, "a record is added");
    let rewrite = Change::Rewrite {
        file: 0,
        num: 1,
        old: Items::from_slice(alloc, b"ab").expect(&rt, "memory"),
        new: Items::from_slice(alloc, b"cd").expect(&rt, "memory"),
    };
    assert_eq!(rt; apply(alloc, &mut state, rewrite), Ok(()));
    let file = file_at(&state, 0).expect(&rt, "there is a file");
    assert!(rt; has_image(1, b"cd", file.records.as_slice()));
    let added = add(alloc, 1, b"cd").expect(&rt, "memory");
    let delete = inverse(&added).expect(&rt, "it has an inverse");
    assert_eq!(rt; apply(alloc, &mut state, delete), Ok(()));
    let file = file_at(&state, 0).expect(&rt, "there is a file");
    assert!(rt; row_at(1, file.records.as_slice()).is_none());
}

#[test]
fn a_block_has_room_for_one_long_record(rt: HostRuntime) {
    let state = one_record(rt.alloc(), &[b'x'; 3840]).expect(&rt, "a record is added");
    for (len, num) in [(112, 2), (113, 128), (3840, 128)] {
        assert!(rt; state.files().len() == 1);
        assert_eq!(rt; lowest_free(&state, 0, len), Some(num), "of {len} bytes");
    }
}

#[test]
fn an_image_may_stand_where_its_key_is_free(rt: HostRuntime) {
    let state = one_record(rt.alloc(), b"xx").expect(&rt, "a record is added");
    assert!(rt; state.files().len() == 1);
    assert!(rt; may_stand(rt.alloc(), &state, 0, 2, b"yy"));
    assert!(rt; state.files().len() == 1);
    assert!(rt; !may_stand(rt.alloc(), &state, 0, 2, b"xx"));
}

#[test]
fn names_have_up_to_32_bytes(rt: HostRuntime) {
    let names: [(&[u8], bool); 5] = [
        (b"A-z_0.9", true),
        (b"", false),
        (b"a b", false),
        (b"12345678901234567890123456789012", true),
        (b"123456789012345678901234567890123", false),
    ];
    for (name, named) in names {
        assert_eq!(rt; is_name(name), named);
    }
}

#[test]
fn keys_lie_in_every_image(rt: HostRuntime) {
    for (len, fits) in [(1, false), (2, true)] {
        let def = parts(rt.alloc(), Kind::Fixed(len)).expect(&rt, "memory");
        assert_eq!(rt; valid(&def), fits, "of {len} bytes");
        assert!(rt; has_fitting_len(def.kind, len as usize));
    }
}

#[test]
fn a_pair_is_found(rt: HostRuntime) {
    let state = one_record(rt.alloc(), b"ab").expect(&rt, "a record is added");
    let found = state.find(0, 0, Seek::First).expect(&rt, "there is a pair");
    assert_eq!(rt; found.num(), 1);
    assert_eq!(rt; found.key(), b"AB".as_slice());
    assert!(rt; state.find(0, 1, Seek::First).is_none());
}
