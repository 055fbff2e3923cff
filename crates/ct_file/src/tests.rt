//! Real files, and a reader and a writer of known bytes.

ghost use Rattle.std.specs.Prelude.{◌+◌, ◌^◌, ◌≤◌, length};

use crate::{OpenError, ReadSource, StoreFiles, WriteSink, hold_standard, make_folder, open_store};
use ct_disk::{Disk, DiskError, DiskFault};
use ct_link::{Source, SourceFault, put_all};
use std::alloc::Global;
use std::fs::File;
use std::test::Fail;
use std::{env, fs, io, process};

fn read_from<D: Disk>(disk: &mut D, at: u64, into: &mut [u8]) -> Result<usize, DiskFault>
    requires { at + length into.old ≤ 2 ^ 62 }
{
    disk.read(at, into)
}

fn write_to<D: Disk>(disk: &mut D, at: u64, bytes: &[u8]) -> Result<(), DiskError>
    requires { at + length bytes.now ≤ 2 ^ 62 }
{
    disk.write_at(at, bytes)
}

fn cut_and_sync<D: Disk>(disk: &mut D, len: u64) -> Result<u64, DiskError>
    requires { len ≤ 2 ^ 62 }
{
    disk.cut(len)?;
    disk.sync()?;
    Ok(disk.len()?)
}

fn take_block<I: Source>(input: &mut I, block: &mut [u8]) -> Result<usize, SourceFault> {
    input.take(block)
}

/// A folder of this test's own, which is not there yet.
fn own_folder(rt: &HostRuntime, name: &str) -> io::Result<String> {
    let id = process::id(rt.process());
    let folder = format!(in rt.alloc(); "ct_file_{name}_{id}")?;
    let path = env::temp_dir(rt)?.join(rt.alloc(), folder.as_str())?;
    String::from_str(rt.alloc(), path.as_str()).map_err(io::Error::from)
}

#[test]
fn files_keep_what_is_written(rt: HostRuntime) -> Result<(), Fail> {
    hold_standard(&rt)?;
    let folder = own_folder(&rt, "kept")?;
    assert_eq!(rt;
        open_store(&rt, rt.alloc(), folder.as_str()).err(),
        Some(OpenError::Device)
    );
    make_folder(&rt, folder.as_str())?;
    make_folder(&rt, folder.as_str())?;
    let StoreFiles { mut pages, mut log } = open_store(&rt, rt.alloc(), folder.as_str())?;
    assert_eq!(rt;
        open_store(&rt, rt.alloc(), folder.as_str()).err(),
        Some(OpenError::Device)
    );

    write_to(&mut log, 3, b"abcdef")?;
    write_to(&mut log, 4, b"X")?;
    let mut block = *b"..........";
    assert_eq!(rt; read_from(&mut log, 1, &mut block), Ok(8));
    assert_eq!(rt; block.as_slice(), b"\0\0aXcdef..".as_slice());
    assert_eq!(rt; read_from(&mut log, 9, &mut block), Ok(0));
    assert_eq!(rt; cut_and_sync(&mut log, 5), Ok(5));
    assert_eq!(rt; cut_and_sync(&mut pages, 2), Ok(2));
    drop(log);
    drop(pages);

    let StoreFiles { mut log, .. } = open_store(&rt, rt.alloc(), folder.as_str())?;
    assert_eq!(rt; read_from(&mut log, 3, &mut block), Ok(2));
    assert_eq!(rt; block.as_slice(), b"aXaXcdef..".as_slice());
    fs::remove_dir_all(&rt, folder.as_str())?;
    Ok(())
}

#[test]
fn a_file_cut_by_others_fails(rt: HostRuntime) -> Result<(), Fail> {
    let folder = own_folder(&rt, "cut")?;
    make_folder(&rt, folder.as_str())?;
    let StoreFiles { mut pages, .. } = open_store(&rt, rt.alloc(), folder.as_str())?;
    write_to(&mut pages, 0, b"abc")?;
    let path = format!(in rt.alloc(); "{folder}/pages.ct")?;
    File::create(&rt, path.as_str())?;
    let mut block = *b"...";
    assert_eq!(rt; read_from(&mut pages, 0, &mut block), Err(DiskFault));
    assert_eq!(rt; cut_and_sync(&mut pages, 2), Ok(2));
    fs::remove_dir_all(&rt, folder.as_str())?;
    Ok(())
}

#[test]
fn streams_pass_their_bytes_on(rt: HostRuntime) -> Result<(), Fail> {
    let mut source = ReadSource::new(rt.alloc(), b"abcde".as_slice())?;
    let mut block = *b"...";
    for (count, bytes) in [(3, b"abc"), (2, b"dec"), (0, b"dec")] {
        assert_eq!(rt; take_block(&mut source, &mut block), Ok(count));
        assert_eq!(rt; block.as_slice(), bytes.as_slice());
    }
    let mut written: Vec<u8, Global> = Vec::new(rt.alloc());
    let mut sink = WriteSink::new(&mut written);
    put_all(&mut sink, b"OK 1\n")?;
    put_all(&mut sink, b"OK 2\n")?;
    drop(sink);
    assert_eq!(rt; written.as_slice(), b"OK 1\nOK 2\n".as_slice());
    Ok(())
}
