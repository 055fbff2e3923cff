//! Numbers in a page, the low byte first: read, and written with every other byte left as it is.

ghost use Rattle.std.specs.Prelude.{◌≡◌, ◌≤◌, ◌+◌};
ghost use Rattle.ct_page.specs.Fields.{u16_at, u64_at, with_u16, with_u64};

/// How many bytes a page has.
pub const PAGE_SIZE: usize = 4096;

/// The number in the two bytes from this place on.
pub fn u16_at(page: &[u8; PAGE_SIZE], at: usize) -> u16
    requires { at + 2 ≤ 4096 }
    ensures { result ≡ u16_at at page.now }
{
    let mut bytes = [0; 2];
    bytes.copy_from_slice(&page[at..at + 2]);
    u16::from_le_bytes(bytes)
}

/// The number in the eight bytes from this place on.
pub fn u64_at(page: &[u8; PAGE_SIZE], at: usize) -> u64
    requires { at + 8 ≤ 4096 }
    ensures { result ≡ u64_at at page.now }
{
    let mut bytes = [0; 8];
    bytes.copy_from_slice(&page[at..at + 8]);
    u64::from_le_bytes(bytes)
}

/// Writes a number into the two bytes from this place on.
pub fn set_u16(page: &mut [u8; PAGE_SIZE], at: usize, value: u16)
    requires { at + 2 ≤ 4096 }
    ensures { page.new ≡ with_u16 at value page.old }
{
    page[at..at + 2].copy_from_slice(&value.to_le_bytes());
}

/// Writes a number into the eight bytes from this place on.
pub fn set_u64(page: &mut [u8; PAGE_SIZE], at: usize, value: u64)
    requires { at + 8 ≤ 4096 }
    ensures { page.new ≡ with_u64 at value page.old }
{
    page[at..at + 8].copy_from_slice(&value.to_le_bytes());
}
