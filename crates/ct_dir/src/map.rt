//! A map page: for each block its page and how many bytes its records use. Entry i of map page j of a file
//! is block 396 j + i.

ghost use Rattle.std.specs.Prelude.{◌≡◌, ◌<◌, ◌≤◌, ◌+◌, max, Some};
ghost use Rattle.ct_dir.specs.MapPage.{entry_count, entry_place, block, with_block};

use ct_page::{HEADER_SIZE, PAGE_SIZE, set_u16, set_u64, u16_at, u64_at};

/// How many entries a map page has at most.
pub const MOST_BLOCKS: usize = 396;

/// Where the count of entries stands in a header.
const COUNT: usize = 6;

/// How many bytes an entry takes.
const ENTRY_SIZE: usize = 10;

/// What a map page tells of a block.
#[derive(Clone, Copy, Debug, PartialEq, Eq)]
pub struct MapEntry {
    /// The page that has the block's records, or 0 where it has none yet.
    pub page: u64,
    /// How many bytes of that page the records use.
    pub used: u16,
}

/// Where an entry stands.
fn entry_place(at: u16) -> usize
    ensures { result ≡ entry_place at }
{
    HEADER_SIZE + ENTRY_SIZE * at as usize
}

/// How many entries the page has.
pub fn entry_count(page: &[u8; PAGE_SIZE]) -> u16
    ensures { result ≡ entry_count page.now }
{
    u16_at(page, COUNT)
}

/// The entry of a block, or `None` where the page has none of it.
pub fn block(page: &[u8; PAGE_SIZE], at: u16) -> Option<MapEntry>
    requires { entry_count page.now ≤ 396 }
    ensures { result ≡ block page.now at }
{
    if at >= entry_count(page) {
        return None;
    }
    let place = entry_place(at);
    Some(MapEntry {
        page: u64_at(page, place),
        used: u16_at(page, place + 8),
    })
}

/// Sets the entry of a block. The page then has as many entries as before, or those up to this one.
pub fn set_block(page: &mut [u8; PAGE_SIZE], at: u16, entry: MapEntry)
    requires { at < 396 }
    ensures page { page.new ≡ with_block at entry page.old }
    ensures count { entry_count page.new ≡ max (entry_count page.old) (at + 1) }
    ensures block { block page.new at ≡ Some entry }
{
    let count = entry_count(page).max(at + 1);
    let place = entry_place(at);
    set_u64(page, place, entry.page);
    set_u16(page, place + 8, entry.used);
    set_u16(page, COUNT, count);
}
