//! A folder as a shelf: each device is a file in it.
//! A file stays locked while its device is lent, so that a second program finds it away.

ghost use Rattle.std.specs.Prelude.{◌≡◌, ◌++◌, ◌∷◌, IsTrue, IfSome, IfOk, string_bytes};
ghost use Rattle.std.specs.List.{list_all};
ghost use Rattle.std.specs.Str.{bytes_eq};
ghost use Rattle.ct_shelf.specs.Shelf.{IsMakeAnswer, IsFindAnswer, CountsShelfFault};
ghost use Rattle.ct_file.specs.Folder.{is_plain, is_file_name};

use crate::file_disk::FileDisk;
use crate::store_files::{OpenError, make_folder};
use ct_disk::Disk;
use ct_items::NoMemory;
use ct_shelf::{Shelf, ShelfRefusal};
use std::alloc::Global;
use std::fs::{File, TryLockError};
use std::io;
use std::rt::Files;

/// The files of a folder by name. It tells nothing of what it has.
///
/// A name stands for the file of this name in the folder and for nothing else: one that is empty, `.`
/// or `..`, or that has a `/`, a NUL or bytes that are no text counts as taken and is never found.
#[derive(Drop)]
pub struct FolderShelf<'a, R> {
    files: &'a R,
    alloc: Global,
    folder: String,
    faults: u64,
}

/// Whether the bytes are the name of a file in a folder.
fn is_file_name(name: &[u8]) -> bool
    ensures { result ≡ is_file_name name.now }
{
    !is(name, b"") && !is(name, b".") && !is(name, b"..") && has_no_separator(name)
}

fn is(name: &[u8], text: &[u8]) -> bool
    ensures { result ≡ bytes_eq name.now text.now }
{
    name == text
}

fn has_no_separator(name: &[u8]) -> bool
    ensures { result ≡ list_all is_plain name.now }
{
    name.iter().all(|byte| *byte != b'/' && *byte != 0)
}

impl<'a, R: Files<File = File>> FolderShelf<'a, R> {
    /// The shelf of a folder, which is made where it is missing; its parent is to be there.
    pub fn open(files: &'a R, alloc: Global, folder: &str) -> Result<FolderShelf<'a, R>, OpenError>
        ensures { IfOk result (λ shelf. shelf.faults ≡ 0) }
    {
        make_folder(files, folder)?;
        Ok(FolderShelf {
            files,
            alloc,
            folder: String::from_str(alloc, folder)?,
            faults: 0,
        })
    }

    /// The path of the file that a name stands for, if it stands for one.
    fn path_of(&self, name: &[u8]) -> Result<Option<String>, NoMemory>
        ensures { IfOk result (λ path. IfSome path (λ text. IsTrue (is_file_name name.now) × (string_bytes text ≡ string_bytes self.now.folder ++ 47 ∷ name.now))) }
    {
        if !is_file_name(name) {
            return Ok(None);
        }
        let Ok(name) = std::str::from_utf8(name) else {
            return Ok(None);
        };
        let folder = self.folder.as_str();
        match format!(in self.alloc; "{folder}/{name}") {
            Ok(path) => Ok(Some(path)),
            Err(_) => Err(NoMemory),
        }
    }

    /// Makes the file of a name, which is to be free, and locks it.
    fn make_file(&self, name: &[u8]) -> Result<FileDisk, ShelfRefusal>
        ensures empty { IfOk result (λ device. device.size ≡ 0) }
        ensures never { IsMakeAnswer result }
    {
        let path = match self.path_of(name) {
            Ok(Some(path)) => path,
            Ok(None) => return Err(ShelfRefusal::Exists),
            Err(_) => return Err(ShelfRefusal::Memory),
        };
        let made = File::options()
            .read(true)
            .write(true)
            .create_new(true)
            .open(self.files, path.as_str());
        match made {
            Ok(file) => self.lend_new(file),
            Err(error) if error.kind() == io::ErrorKind::AlreadyExists => Err(ShelfRefusal::Exists),
            Err(_) => Err(ShelfRefusal::Fault),
        }
    }

    /// Lends a file that was just made. The folder is synced, so that the file stays in it.
    fn lend_new(&self, file: File) -> Result<FileDisk, ShelfRefusal>
        ensures empty { IfOk result (λ device. device.size ≡ 0) }
        ensures never { IsMakeAnswer result }
    {
        if file.try_lock().is_err() || self.sync_folder().is_err() {
            return Err(ShelfRefusal::Fault);
        }
        let Ok(mut device) = FileDisk::new(file) else {
            return Err(ShelfRefusal::Fault);
        };
        match device.len() {
            Ok(0) => Ok(device),
            _ => Err(ShelfRefusal::Fault),
        }
    }

    fn sync_folder(&self) -> io::Result<()> {
        File::open(self.files, self.folder.as_str())?.sync_all()
    }

    /// Finds the file of a name and locks it.
    fn find_file(&self, name: &[u8]) -> Result<FileDisk, ShelfRefusal>
        ensures { IsFindAnswer result }
    {
        let path = match self.path_of(name) {
            Ok(Some(path)) => path,
            Ok(None) => return Err(ShelfRefusal::Missing),
            Err(_) => return Err(ShelfRefusal::Memory),
        };
        let found = File::options()
            .read(true)
            .write(true)
            .open(self.files, path.as_str());
        match found {
            Ok(file) => lend_found(file),
            Err(error) if error.kind() == io::ErrorKind::NotFound => Err(ShelfRefusal::Missing),
            Err(_) => Err(ShelfRefusal::Fault),
        }
    }
}

/// Lends a file that was found, unless it is lent already.
fn lend_found(file: File) -> Result<FileDisk, ShelfRefusal>
    ensures { IsFindAnswer result }
{
    match file.try_lock() {
        Ok(()) => {}
        Err(TryLockError::WouldBlock) => return Err(ShelfRefusal::Missing),
        Err(TryLockError::Error(_)) => return Err(ShelfRefusal::Fault),
    }
    match FileDisk::new(file) {
        Ok(device) => Ok(device),
        Err(_) => Err(ShelfRefusal::Fault),
    }
}

/// The count after a call with this answer.
fn counted<T>(faults: u64, answer: &Result<T, ShelfRefusal>) -> u64
    ensures { CountsShelfFault answer.now faults result }
{
    match answer {
        Err(ShelfRefusal::Fault) => faults.saturating_add(1),
        _ => faults,
    }
}

impl<'a, R: Files<File = File>> Shelf for FolderShelf<'a, R> {
    type D = FileDisk;

    ghost use Rattle.std.specs.Prelude.{false};
    ghost use Rattle.ct_shelf.specs.Shelf.{free};

    ghost tells = { false };

    ghost place = { λ _ _. free };

    ghost faults = { λ shelf. shelf.faults };

    fn make(&mut self, name: &[u8]) -> Result<FileDisk, ShelfRefusal> {
        let made = self.make_file(name);
        self.faults = counted(self.faults, &made);
        made
    }

    fn find(&mut self, name: &[u8]) -> Result<FileDisk, ShelfRefusal> {
        let found = self.find_file(name);
        self.faults = counted(self.faults, &found);
        found
    }

    fn give_back(&mut self, _name: &[u8], device: FileDisk) {
        // The file's lock ends as it is closed.
        drop(device);
    }
}
