//! Runs over devices in memory: what they write, how they end, and what is opened again after a stop. Inputs in pieces
//! and outside calls that fail are rows of the program `rows`.

use crate::{Cause, Ended, run_tool};
use ct_disk::MemDisk;
use ct_items::NoMemory;
use ct_link::{MemSink, MemSource};
use std::alloc::Global;
use std::test::Fail;

// a file made, a record added and found
const LINES: &[u8; 78] =
    b"CREATE part FIX 4 KEY id UNIQUE SEG REGSEG 0 4\nADD part 0001\nGET part id 0001\n";

const REPLIES: &[u8; 20] = b"OK 1\nOK 1\nOK 1 0001\n";

// the place of the first chunk
const FIRST_CHUNK: usize = 12288;

// the devices of a store
#[derive(Drop)]
struct Store {
    pages: MemDisk,
    log: MemDisk,
}

// runs the words over a store, an input and an output
fn run(
    alloc: Global,
    line: &str,
    store: Store,
    input: &mut MemSource,
    out: &mut MemSink,
) -> Result<(Cause, Store), NoMemory> {
    let mut words = Vec::new(alloc);
    for word in line.split(' ') {
        words.push(String::from_str(alloc, word)?)?;
    }
    let Store { pages, log } = store;
    let Ended {
        status: _,
        cause,
        pages,
        log,
        front: _,
    } = run_tool(alloc, &words, pages, log, input, out);
    Ok((cause, Store { pages, log }))
}

// devices that hold nothing
fn empty(alloc: Global) -> Store {
    Store {
        pages: MemDisk::new(alloc),
        log: MemDisk::new(alloc),
    }
}

// runs the words over a store and these bytes of input
fn run_on(
    alloc: Global,
    line: &str,
    store: Store,
    input: &[u8],
) -> Result<(Cause, Store, MemSink), NoMemory> {
    let mut input = MemSource::new(alloc, input)?;
    let mut out = MemSink::new(alloc);
    let (cause, store) = run(alloc, line, store, &mut input, &mut out)?;
    Ok((cause, store, out))
}

// the same devices, of which no call was made yet, with another byte at a place of the log
fn again(alloc: Global, store: &Store, at: usize, byte: u8) -> Result<Store, NoMemory> {
    let mut log = Vec::from_slice(alloc, store.log.bytes())?;
    if at < log.len() {
        log[at] = byte;
    }
    Ok(Store {
        pages: MemDisk::of(alloc, store.pages.bytes())?,
        log: MemDisk::of(alloc, &log)?,
    })
}

// a store of which these lines were answered
fn made(alloc: Global, lines: &[u8]) -> Result<Store, NoMemory> {
    let (_cause, store, _out) = run_on(alloc, "create shop", empty(alloc), b"")?;
    let (_cause, store, _out) = run_on(alloc, "exec", store, lines)?;
    again(alloc, &store, 0, b'C')
}

#[test]
fn a_session_writes_its_replies_and_its_log(rt: HostRuntime) -> Result<(), Fail> {
    let (cause, store, out) = run_on(rt.alloc(), "exec", made(rt.alloc(), b"")?, LINES)?;
    assert_eq!(rt; cause, Cause::Done);
    assert_eq!(rt; out.bytes(), REPLIES.as_slice());
    assert_eq!(rt; store.log.bytes().len(), 12389);
    Ok(())
}

#[test]
fn an_unfinished_and_a_long_line_are_answered(rt: HostRuntime) -> Result<(), Fail> {
    let mut text = vec![in rt.alloc(); b'x'; 16385]?;
    text.extend_from_slice(b"\nGET part id 0001")?;
    let (cause, _store, out) = run_on(rt.alloc(), "exec", made(rt.alloc(), b"")?, &text)?;
    assert_eq!(rt; cause, Cause::Done);
    assert_eq!(rt; out.bytes(), b"ERR BADLINE 16384\nERR NOFILE\n".as_slice());
    Ok(())
}

// what `check` puts of a store
fn checked(alloc: Global, store: Store) -> Result<(Cause, MemSink), NoMemory> {
    let (cause, _store, out) = run_on(alloc, "check", store, b"")?;
    Ok((cause, out))
}

// what a crash may leave of a store
fn crashed(store: Store, pick: u64) -> Result<Store, NoMemory> {
    Ok(Store {
        pages: store.pages.crash(pick)?,
        log: store.log.crash(pick)?,
    })
}

// adds a record to a store of one file, with a log that fails from a call on, and checks what a crash leaves
fn stopped(alloc: Global, call: u64, pick: u64) -> Result<(MemSink, MemSink), NoMemory> {
    let mut store = made(alloc, &LINES[..47])?;
    store.log.fail_from(call);
    let (_cause, store, out) = run_on(alloc, "exec", store, b"ADD part 0001\n")?;
    let (_cause, told) = checked(alloc, crashed(store, pick)?)?;
    Ok((out, told))
}

// six calls open the log of one transaction; the seventh writes the record's chunk, the eighth syncs it, and the next two do so with its gate
#[test]
fn a_record_stopped_anywhere_is_there_or_not(rt: HostRuntime) -> Result<(), Fail> {
    for call in 7..=11 {
        for pick in 0..10 {
            let (out, told) = stopped(rt.alloc(), call, pick)?;
            let without = told.bytes() == b"OK 1 1 0\n".as_slice();
            let with = told.bytes() == b"OK 2 1 1\n".as_slice();
            let answered = out.bytes() == b"OK 1\n".as_slice();
            assert_eq!(rt; answered, call == 11, "{call} {pick}");
            assert!(rt;
                if call <= 9 {
                    without
                } else {
                    with || !answered
                },
                "{call} {pick}"
            );
            assert!(rt; without || with, "{call} {pick}");
        }
    }
    Ok(())
}

#[test]
fn a_damaged_log_is_refused_or_ends_early(rt: HostRuntime) -> Result<(), Fail> {
    let store = made(rt.alloc(), LINES)?;
    let (cause, told) = checked(rt.alloc(), again(rt.alloc(), &store, FIRST_CHUNK, 2)?)?;
    assert_eq!(rt;
        (cause, told.bytes()),
        (Cause::Done, b"OK 0 0 0\n".as_slice())
    );
    let rows = [
        (0, Cause::BadLog(0)),
        (36, Cause::Undone),
        (4128, Cause::BadLog(4096)),
        (FIRST_CHUNK + 4, Cause::BadLog(12288)),
        (FIRST_CHUNK + 5, Cause::BadLog(12293)),
        (FIRST_CHUNK + 10, Cause::BadLog(12293)),
    ];
    for (at, wanted) in rows {
        let damaged = again(rt.alloc(), &store, at, if at == 4128 { 1 } else { 255 })?;
        let (cause, told) = checked(rt.alloc(), damaged)?;
        assert_eq!(rt; (cause, told.bytes()), (wanted, b"".as_slice()), "{at}");
    }
    Ok(())
}
