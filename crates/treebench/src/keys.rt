//! Keys of 8 bytes in no order, the same in each run.

/// The key of a place: its number stirred, so that no two places have one key.
pub fn key_of(place: u64) -> [u8; 8] {
    let stirred = (place ^ (place >> 31)).wrapping_mul(0x9E37_79B9_7F4A_7C15);
    (stirred ^ (stirred >> 29)).to_be_bytes()
}
