//! A definition page: behind a definition of `len` bytes the first map page, and for each index its root and
//! its first leaf.

ghost use Rattle.std.specs.Prelude.{◌≡◌, ◌≤◌, ◌+◌};
ghost use Rattle.ct_page.specs.Fields.{with_u64};
ghost use Rattle.ct_dir.specs.DefinitionPage.{map_place, root_place, leaf_place, first_map_of, root_of, first_leaf_of};

use ct_page::{HEADER_SIZE, PAGE_SIZE, set_u64, u64_at};

/// How many bytes the root and the first leaf of an index take.
const INDEX_SIZE: usize = 16;

/// Where the root of an index stands.
fn root_place(len: usize, index: u16) -> usize
    requires { root_place len index ≤ 4096 }
    ensures { result ≡ root_place len index }
{
    HEADER_SIZE + 8 + len + INDEX_SIZE * index as usize
}

/// The root of an index.
pub fn root(page: &[u8; PAGE_SIZE], len: usize, index: u16) -> u64
    requires { root_place len index + 8 ≤ 4096 }
    ensures { result ≡ root_of page.now len index }
{
    u64_at(page, root_place(len, index))
}

/// Sets the root of an index.
pub fn set_root(page: &mut [u8; PAGE_SIZE], len: usize, index: u16, root: u64)
    requires { root_place len index + 8 ≤ 4096 }
    ensures page { page.new ≡ with_u64 (root_place len index) root page.old }
    ensures root { root_of page.new len index ≡ root }
{
    set_u64(page, root_place(len, index), root);
}

/// The first leaf of an index.
pub fn first_leaf(page: &[u8; PAGE_SIZE], len: usize, index: u16) -> u64
    requires { leaf_place len index + 8 ≤ 4096 }
    ensures { result ≡ first_leaf_of page.now len index }
{
    u64_at(page, root_place(len, index) + 8)
}

/// Sets the first leaf of an index.
pub fn set_first_leaf(page: &mut [u8; PAGE_SIZE], len: usize, index: u16, leaf: u64)
    requires { leaf_place len index + 8 ≤ 4096 }
    ensures page { page.new ≡ with_u64 (leaf_place len index) leaf page.old }
    ensures leaf { first_leaf_of page.new len index ≡ leaf }
{
    set_u64(page, root_place(len, index) + 8, leaf);
}

/// The first map page of the file.
pub fn first_map(page: &[u8; PAGE_SIZE], len: usize) -> u64
    requires { map_place len + 8 ≤ 4096 }
    ensures { result ≡ first_map_of page.now len }
{
    u64_at(page, HEADER_SIZE + len)
}

/// Sets the first map page of the file.
pub fn set_first_map(page: &mut [u8; PAGE_SIZE], len: usize, map: u64)
    requires { map_place len + 8 ≤ 4096 }
    ensures page { page.new ≡ with_u64 (map_place len) map page.old }
    ensures map { first_map_of page.new len ≡ map }
{
    set_u64(page, HEADER_SIZE + len, map);
}
