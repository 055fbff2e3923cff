//! Rows, and each call once.

use crate::{Fetched, FrameFault, Frames, Image};
use ct_disk::MemDisk;
use ct_page::{Header, PAGE_SIZE, PageKind, u64_at};
use std::test::Fail;

/// A record page with this position.
fn records(position: u64) -> [u8; PAGE_SIZE] {
    let mut page = [0; PAGE_SIZE];
    let header = Header {
        kind: PageKind::Records,
        file: 3,
        index: 65535,
        count: 0,
        position,
        right: 0,
        key_len: 0,
    };
    header.write(&mut page);
    page
}

#[test]
fn a_page_is_read_once(rt: HostRuntime) -> Result<(), Fail> {
    let mut frames = Frames::new(rt.alloc(), MemDisk::of(rt.alloc(), &records(2))?);
    assert_eq!(rt; frames.fetch(0)?, Fetched::Moved);
    assert_eq!(rt; frames.fetch(0)?, Fetched::Here);
    assert_eq!(rt; u64_at(frames.page(0), 8), 2);
    assert_eq!(rt; frames.oldest(), None);
    frames.sync()?;
    assert_eq!(rt; frames.into_device().bytes().len(), 4096);
    Ok(())
}

#[test]
fn an_edited_page_has_its_position(rt: HostRuntime) -> Result<(), Fail> {
    let mut frames = Frames::new(rt.alloc(), MemDisk::new(rt.alloc()));
    frames.fetch(5)?;
    frames.edit(5, &records(2), 7);
    assert_eq!(rt; frames.fetch(5)?, Fetched::Here);
    assert_eq!(rt; frames.page(5).as_slice(), records(7).as_slice());
    assert_eq!(rt; frames.oldest(), Some(7));
    Ok(())
}

#[test]
fn a_new_page_is_blank(rt: HostRuntime) -> Result<(), Fail> {
    let mut frames = Frames::new(rt.alloc(), MemDisk::of(rt.alloc(), &records(2))?);
    frames.blank(0)?;
    assert_eq!(rt; frames.page(0).as_slice(), [0; PAGE_SIZE].as_slice());
    assert_eq!(rt; frames.oldest(), None);
    Ok(())
}

#[test]
fn the_last_image_stays(rt: HostRuntime) -> Result<(), Fail> {
    let mut frames = Frames::new(rt.alloc(), MemDisk::new(rt.alloc()));
    frames.replay(1, &records(0), 3)?;
    frames.replay(1, &records(0), 5)?;
    frames.replay(2, &records(0), 4)?;
    assert_eq!(rt; u64_at(frames.page(1), 8), 5);
    assert_eq!(rt; u64_at(frames.page(2), 8), 4);
    assert_eq!(rt; frames.oldest(), Some(3));
    Ok(())
}

#[test]
fn images_are_placed_in_their_order(rt: HostRuntime) -> Result<(), Fail> {
    let mut frames = Frames::new(rt.alloc(), MemDisk::new(rt.alloc()));
    let bytes = records(0);
    let image = |page, position| Image {
        page,
        bytes: &bytes,
        position,
    };
    frames.replay_all(&[image(1, 3), image(1, 5), image(2, 4)])?;
    assert_eq!(rt; frames.fetch(1)?, Fetched::Here);
    assert_eq!(rt; frames.fetch(2)?, Fetched::Here);
    Ok(())
}

#[test]
fn a_page_past_the_end_is_zeros(rt: HostRuntime) -> Result<(), Fail> {
    let mut frames = Frames::new(rt.alloc(), MemDisk::of(rt.alloc(), &records(2))?);
    assert_eq!(rt; frames.fetch(9)?, Fetched::Moved);
    assert_eq!(rt; frames.page(9).as_slice(), [0; PAGE_SIZE].as_slice());
    Ok(())
}

#[test]
fn a_page_outside_the_grammar_is_bad(rt: HostRuntime) -> Result<(), Fail> {
    let mut frames = Frames::new(rt.alloc(), MemDisk::of(rt.alloc(), &[9])?);
    assert_eq!(rt; frames.fetch(0), Err(FrameFault::BadPage(0)));
    Ok(())
}

#[test]
fn a_failed_read_is_made_again(rt: HostRuntime) -> Result<(), Fail> {
    let mut disk = MemDisk::new(rt.alloc());
    disk.fail_at(1)?;
    let mut frames = Frames::new(rt.alloc(), disk);
    assert_eq!(rt; frames.fetch(0), Err(FrameFault::Fault));
    assert_eq!(rt; frames.fetch(0), Ok(Fetched::Moved));
    Ok(())
}
