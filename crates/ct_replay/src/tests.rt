//! Groups replayed over pages in memory.

ghost use Rattle.std.specs.Prelude.{◌<◌, ◌^◌, All, IfOk};
ghost use Rattle.ct_replay.specs.Images.{IsPlaceable};

use crate::replay_groups;
use ct_definitions::Bytes;
use ct_disk::MemDisk;
use ct_frames::{Fetched, Frames};
use ct_group::{Group, Image};
use ct_items::NoMemory;
use ct_page::{Header, PAGE_SIZE, PageKind, u64_at};
use std::alloc::Global;
use std::test::Fail;

/// A mark for page 0, and the image of a record page without records for any other.
fn group_of(alloc: Global, page: u8) -> Result<Group, NoMemory>
    ensures { IfOk result IsPlaceable }
{
    if page == 0 {
        return Ok(Group::Mark(3));
    }
    let mut bytes = [0; PAGE_SIZE];
    let header = Header {
        kind: PageKind::Records,
        file: 3,
        index: 65535,
        count: 0,
        position: 0,
        right: 0,
        key_len: 0,
    };
    header.write(&mut bytes);
    Ok(Group::Image(Image {
        page: u64::from(page),
        transaction: 0,
        steps: 0,
        bytes: Bytes::from_slice(alloc, &bytes)?,
    }))
}

fn groups_of(alloc: Global, pages: &[u8]) -> Result<Vec<Group>, NoMemory>
    ensures { IfOk result (λ groups. All IsPlaceable groups.items) }
{
    let mut groups = Vec::new(alloc);
    for page in pages {
        groups.push(group_of(alloc, *page)?)?;
    }
    Ok(groups)
}

#[test]
fn each_page_has_its_last_image(rt: HostRuntime) -> Result<(), Fail> {
    let mut frames = Frames::new(rt.alloc(), MemDisk::new(rt.alloc()));
    let groups = groups_of(rt.alloc(), &[0, 1, 2, 1])?;
    if groups.len() == 4 {
        replay_groups(&mut frames, groups.as_slice(), 3)?;
    }
    assert_eq!(rt; frames.fetch(1)?, Fetched::Here);
    assert_eq!(rt; u64_at(frames.page(1), 8), 6);
    assert_eq!(rt; frames.fetch(2)?, Fetched::Here);
    assert_eq!(rt; u64_at(frames.page(2), 8), 5);
    assert_eq!(rt; frames.oldest(), Some(4));
    Ok(())
}
