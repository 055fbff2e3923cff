//! A file as a disk.
//! It keeps the length that the file has by its own calls, and counts each fault.

ghost use Rattle.std.specs.Prelude.{◌≡◌, ◌+◌, ◌-◌, ◌<◌, ◌≤◌, ◌^◌, ◌⊎◌, IsTrue, IfOk, IsErr, OnOk, OnErr, true, length, drop, min, max};
ghost use Rattle.ct_disk.specs.Disk.{SizedByWrite, SizedByCut, raised, CountsFault, HasCause};
ghost use Rattle.ct_file.specs.Files.{IsFresh, StaysLost};

use crate::counts::Counts;
use crate::limits::most_bytes;
use ct_disk::{Disk, DiskError, DiskFault};
use std::fs::File;
use std::io;
use std::marker::Model;
use std::os::unix::fs::FileExt;

/// An open file as a disk. It tells no content.
///
/// The file is to have no other writer while it is open: its length is asked for once, and kept from
/// then on. A file that turns out shorter than that fails its reads, and one of another length its
/// `len`.
///
/// After a sync that failed each call fails: some systems count bytes as written which the device
/// has refused, so that what a read gives from then on may be in their memory alone. A call that
/// would take the file past the greatest size that this process may give one fails as well, in place
/// of the signal with which the system would end the process.
#[derive(Drop)]
pub struct FileDisk {
    file: File,
    size: u64,
    limit: u64,
    is_lost: bool,
    counts: Counts,
}

impl Model for FileDisk {
    ghost use Rattle.ct_file.specs.Files.{OpenFile};

    ghost Value = { OpenFile };

    ghost view = { λ disk. record {
      size = disk.size;
      limit = disk.limit;
      is_lost = disk.is_lost;
      reads = disk.counts.reads;
      calls = disk.counts.calls;
      faults = disk.counts.faults;
    } };
}

impl FileDisk {
    /// The file as it stands, open for reading and writing.
    pub fn new(file: File) -> io::Result<FileDisk>
        ensures { IfOk result IsFresh }
    {
        let size = file.metadata()?.len();
        let limit = most_bytes()?;
        Ok(FileDisk {
            file,
            size,
            limit,
            is_lost: false,
            counts: Counts::NONE,
        })
    }

    /// Refuses every call after a sync that failed, and each that goes past the limit.
    fn allow(&self, end: u64) -> io::Result<()>
        ensures lost { IsTrue self.now.is_lost → IsErr result }
        ensures limit { self.now.limit < end → IsErr result }
    {
        if self.is_lost {
            return Err(io::Error::from(io::ErrorKind::Other));
        }
        if end > self.limit {
            return Err(io::Error::from(io::ErrorKind::FileTooLarge));
        }
        Ok(())
    }

    /// Fills `into` with the bytes from this place on.
    fn read_file(&self, at: u64, into: &mut [u8]) -> io::Result<()>
        ensures lost { IsTrue self.now.is_lost → IsErr result }
    {
        self.allow(0)?;
        self.file.read_exact_at(into, at)
    }

    /// Writes at this place, behind zeros where the file ends before it.
    fn write_file(&self, at: u64, bytes: &[u8]) -> io::Result<()>
        requires { at + length bytes.now < 2 ^ 64 }
        ensures lost { IsTrue self.now.is_lost → IsErr result }
        ensures limit { self.now.limit < at + length bytes.now → IsErr result }
    {
        self.allow(at + bytes.len() as u64)?;
        if at > self.size {
            self.set_file_len(at)?;
        }
        self.file.write_all_at(bytes, at)
    }

    /// Cuts the file to this length, or lengthens it with zeros, also over what a write that failed
    /// may have left behind its end.
    fn set_file_len(&self, len: u64) -> io::Result<()>
        ensures lost { IsTrue self.now.is_lost → IsErr result }
        ensures limit { self.now.limit < len → IsErr result }
    {
        self.allow(len)?;
        if len > self.size {
            self.file.set_len(self.size)?;
        }
        self.file.set_len(len)
    }

    /// Makes the file's bytes stable.
    fn flush(&self) -> io::Result<()>
        ensures lost { IsTrue self.now.is_lost → IsErr result }
    {
        self.allow(0)?;
        self.file.sync_data()
    }

    /// Makes the file's bytes stable. Where that fails, the disk is lost.
    fn sync_file(&mut self) -> Result<(), DiskFault>
        ensures lost { IsTrue self.old.is_lost → IsErr result }
        ensures ok { OnOk result (self.new ≡ self.old) }
        ensures err { OnErr result (self.new ≡ record self.old { is_lost = true }) }
    {
        if self.flush().is_err() {
            self.is_lost = true;
            return Err(DiskFault);
        }
        Ok(())
    }

    /// The length that the system tells.
    fn file_len(&self) -> io::Result<u64>
        ensures lost { IsTrue self.now.is_lost → IsErr result }
    {
        self.allow(0)?;
        Ok(self.file.metadata()?.len())
    }

    /// The file's length after a write that failed: between the old one and the write's end.
    fn torn_size(&self, end: u64) -> u64
        ensures no_shorter { self.now.size ≤ result }
        ensures no_longer { result ≤ max self.now.size end }
    {
        let most = self.size.max(end);
        match self.file.metadata() {
            Ok(metadata) => metadata.len().max(self.size).min(most),
            Err(_) => self.size,
        }
    }

    /// The file's length after a cut that failed: the old one or the new one.
    fn bent_size(&self, len: u64) -> u64
        ensures { (result ≡ self.now.size) ⊎ (result ≡ len) }
    {
        match self.file.metadata() {
            Ok(metadata) if metadata.len() == len => len,
            _ => self.size,
        }
    }
}

impl Disk for FileDisk {
    ghost use Rattle.std.specs.Prelude.{◌+◌, ◌^◌, false, [], refl};
    ghost use Rattle.std.proofs.Common.{lit≤};

    ghost tells = { false };

    ghost reach = { 2 ^ 62 + 8192 };

    ghost content = { λ _. [] };

    ghost may_leave = { λ _ _. Unit {0} };

    ghost left_since = { λ _ _ _. Unit {0} };

    ghost size = { λ disk. disk.size };

    ghost reads = { λ disk. disk.reads };

    ghost calls = { λ disk. disk.calls };

    ghost faults = { λ disk. disk.faults };

    fn read(&mut self, at: u64, into: &mut [u8]) -> Result<usize, DiskFault>
        ensures count { IfOk result (λ n. n ≡ min (length into.old) (self.old.size - at)) }
        ensures rest { let most = min (length into.old) (self.old.size - at) in drop most into.new ≡ drop most into.old }
        ensures size { self.new.size ≡ self.old.size }
        ensures reads { self.new.reads ≡ raised self.old.reads }
        ensures calls { self.new.calls ≡ raised self.old.calls }
        ensures cause { CountsFault self.old.faults self.new.faults result }
        ensures lost { StaysLost self.old self.new result }
    {
        self.counts.read();
        let left = self.size.saturating_sub(at);
        let count = left.min(into.len() as u64) as usize;
        if self.read_file(at, &mut into[..count]).is_err() {
            self.counts.fault();
            return Err(DiskFault);
        }
        Ok(count)
    }

    fn write_at(&mut self, at: u64, bytes: &[u8]) -> Result<(), DiskError>
        requires { at + length bytes.now ≤ 2 ^ 62 + 8192 }
        ensures size { SizedByWrite result at (length bytes.now) self.old.size self.new.size }
        ensures reads { self.new.reads ≡ self.old.reads }
        ensures calls { self.new.calls ≡ raised self.old.calls }
        ensures cause { HasCause self.old.faults self.new.faults result }
        ensures lost { StaysLost self.old self.new result }
        ensures limit { self.old.limit < at + length bytes.now → IsErr result }
    {
        self.counts.call();
        let end = at + bytes.len() as u64;
        if self.write_file(at, bytes).is_err() {
            self.counts.fault();
            self.size = self.torn_size(end);
            return Err(DiskError::Fault);
        }
        self.size = self.size.max(end);
        Ok(())
    }

    fn cut(&mut self, len: u64) -> Result<(), DiskError>
        ensures size { SizedByCut result len self.old.size self.new.size }
        ensures reads { self.new.reads ≡ self.old.reads }
        ensures calls { self.new.calls ≡ raised self.old.calls }
        ensures cause { HasCause self.old.faults self.new.faults result }
        ensures lost { StaysLost self.old self.new result }
        ensures limit { self.old.limit < len → IsErr result }
    {
        self.counts.call();
        if self.set_file_len(len).is_err() {
            self.counts.fault();
            self.size = self.bent_size(len);
            return Err(DiskError::Fault);
        }
        self.size = len;
        Ok(())
    }

    fn sync(&mut self) -> Result<(), DiskFault>
        ensures size { self.new.size ≡ self.old.size }
        ensures reads { self.new.reads ≡ self.old.reads }
        ensures calls { self.new.calls ≡ raised self.old.calls }
        ensures cause { CountsFault self.old.faults self.new.faults result }
        ensures lost { StaysLost self.old self.new result }
        ensures failed { OnErr result (IsTrue self.new.is_lost) }
    {
        self.counts.call();
        if self.sync_file().is_err() {
            self.counts.fault();
            return Err(DiskFault);
        }
        Ok(())
    }

    fn len(&mut self) -> Result<u64, DiskFault>
        ensures length { IfOk result (λ n. n ≡ self.old.size) }
        ensures size { self.new.size ≡ self.old.size }
        ensures reads { self.new.reads ≡ self.old.reads }
        ensures calls { self.new.calls ≡ raised self.old.calls }
        ensures cause { CountsFault self.old.faults self.new.faults result }
        ensures lost { StaysLost self.old self.new result }
    {
        self.counts.call();
        match self.file_len() {
            Ok(len) if len == self.size => Ok(self.size),
            _ => {
                self.counts.fault();
                Err(DiskFault)
            }
        }
    }

    ghost far = { lit≤ tt };

    ghost sized = { λ _ told. Prim.cc };

    ghost reads_now = { λ _ _. tt };

    ghost counts_now = { λ _ _ _ _ _. tt };

    ghost only_now = { λ _ _ _ _. tt };
}
