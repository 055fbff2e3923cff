//! The two files of a store, in its folder.
//! Their lock keeps a second program out.

ghost use Rattle.std.specs.Prelude.{◌≡◌, IfOk, IfErr};
ghost use Rattle.ct_file.specs.Files.{IsFresh};

use crate::file_disk::FileDisk;
use std::alloc::{AllocError, Global};
use std::fs::File;
use std::os::fd::AsRawFd;
use std::path::Path;
use std::rt::Files;
use std::{fs, io};
use thiserror::Error;

/// Why a folder or its files could not be had.
#[derive(Clone, Copy, Debug, PartialEq, Eq, Error)]
pub enum OpenError {
    /// A file or the folder could not be opened, made or locked.
    #[error("a file could not be opened, made or locked")]
    Device,
    /// The call could not have the memory that it asked for.
    #[error("out of memory")]
    Memory,
}

impl From<io::Error> for OpenError {
    ghost use Rattle.std.specs.Prelude.{◌≡◌};
    ghost use Rattle.ct_file.specs.declared.store_files.OpenError.TheVariants.{Device};

    ghost from_gives = { λ _ error. error ≡ Device };

    fn from(_error: io::Error) -> OpenError {
        OpenError::Device
    }
}

impl From<AllocError> for OpenError {
    ghost use Rattle.std.specs.Prelude.{◌≡◌};
    ghost use Rattle.ct_file.specs.declared.store_files.OpenError.TheVariants.{Memory};

    ghost from_gives = { λ _ error. error ≡ Memory };

    fn from(_refusal: AllocError) -> OpenError {
        OpenError::Memory
    }
}

/// The devices of a store.
#[derive(Drop)]
pub struct StoreFiles {
    pub pages: FileDisk,
    pub log: FileDisk,
}

/// Makes the folder, whose parent is to be there, unless there is one. The parent is synced, so that
/// the folder stays in it. Where the folder was there already, a parent that cannot be opened is
/// left as it is.
pub fn make_folder<R: Files<File = File>>(files: &R, folder: &str) -> Result<(), OpenError>
    ensures device { IfErr result (λ error. error ≡ OpenError.Device) }
{
    let is_new = match fs::create_dir(files, folder) {
        Ok(()) => true,
        Err(error) if error.kind() == io::ErrorKind::AlreadyExists => false,
        Err(_) => return Err(OpenError::Device),
    };
    match File::open(files, parent_of(folder)) {
        Err(_) if is_new => Err(OpenError::Device),
        Err(_) => Ok(()),
        Ok(parent) => match parent.sync_all() {
            Ok(()) => Ok(()),
            Err(_) => Err(OpenError::Device),
        },
    }
}

/// The path of the folder in which this path names one.
fn parent_of(folder: &str) -> Path<'_> {
    match Path::new(folder).parent() {
        Some(parent) if !parent.as_str().is_empty() => parent,
        Some(_) => Path::new("."),
        None => Path::new("/"),
    }
}

/// Opens the files `pages.ct` and `log.ct` of a folder, and makes those that are missing, empty.
/// The log stays locked while it is open, so that a second program on the folder is refused. The
/// folder is synced, so that the files stay in it, and the log will be read as its device has it.
pub fn open_store<R: Files<File = File>>(
    files: &R,
    alloc: Global,
    folder: &str,
) -> Result<StoreFiles, OpenError>
    ensures pages { IfOk result (λ store. IsFresh store.pages) }
    ensures log { IfOk result (λ store. IsFresh store.log) }
{
    let log = open_file(files, alloc, folder, "log.ct")?;
    if log.try_lock().is_err() {
        return Err(OpenError::Device);
    }
    settle(&log)?;
    let pages = open_file(files, alloc, folder, "pages.ct")?;
    File::open(files, folder)?.sync_all()?;
    Ok(StoreFiles {
        pages: FileDisk::new(pages)?,
        log: FileDisk::new(log)?,
    })
}

/// Syncs the file and has the system forget what it keeps of its bytes, so that a read gives what the
/// device has. After a sync of another program that failed, this may be less than the system keeps.
fn settle(file: &File) -> io::Result<()> {
    file.sync_all()?;
    match libc::posix_fadvise(file.as_raw_fd(), 0, 0, libc::POSIX_FADV_DONTNEED) {
        0 => Ok(()),
        code => Err(io::Error::from_raw_os_error(code)),
    }
}

/// Opens a file of the folder for reading and writing, and makes it where it is missing.
fn open_file<R: Files<File = File>>(
    files: &R,
    alloc: Global,
    folder: &str,
    name: &str,
) -> Result<File, OpenError> {
    let path = format!(in alloc; "{folder}/{name}")?;
    let file = File::options()
        .read(true)
        .write(true)
        .create(true)
        .open(files, path.as_str())?;
    Ok(file)
}
