//! The descriptors 0 to 2, under which a program reads and writes its standard streams.
//! A file that the program opens must never take the number of one that was closed.

ghost use Rattle.std.specs.Prelude.{◌≡◌, IfErr};

use crate::store_files::OpenError;
use std::fs::File;
use std::os::fd::{AsRawFd, IntoRawFd};
use std::rt::Files;

/// Holds each of the descriptors 0 to 2 that was closed when the program began, for the rest of its
/// run. Every program calls it before it opens a file: else the file would be its standard input, or
/// would have its replies and messages written over it.
///
/// What holds a number is the root folder, open for reading, which can neither be read nor written
/// as a file: so a stream that was closed fails, as it should.
pub fn hold_standard<R: Files<File = File>>(files: &R) -> Result<(), OpenError>
    ensures device { IfErr result (λ error. error ≡ OpenError.Device) }
{
    for number in 0..3 {
        hold(files, number)?;
    }
    Ok(())
}

/// Holds this number, where those below it are held: the system gives a file the least free number.
fn hold<R: Files<File = File>>(files: &R, number: i32) -> Result<(), OpenError>
    ensures device { IfErr result (λ error. error ≡ OpenError.Device) }
{
    let Ok(folder) = File::open(files, "/") else {
        return Err(OpenError::Device);
    };
    if folder.as_raw_fd() == number {
        // It stays open with no owner.
        let _ = folder.into_raw_fd();
    }
    Ok(())
}
