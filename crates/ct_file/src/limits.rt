//! What the system grants this process.
//! Past it a call would not fail: the system would end the process.

use libc::types::rlimit;
use std::io;

/// The limit on the size of a file, by its number on Linux.
const RLIMIT_FSIZE: i32 = 1;

/// The greatest length in bytes that this process may give a file.
pub(crate) fn most_bytes() -> io::Result<u64> {
    let mut limit = rlimit {
        rlim_cur: 0,
        rlim_max: 0,
    };
    if libc::getrlimit(RLIMIT_FSIZE, &mut limit) < 0 {
        return Err(io::Error::from(io::ErrorKind::Other));
    }
    Ok(limit.rlim_cur)
}
