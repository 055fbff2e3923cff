//! A session over a log in memory: lines outside the grammar, the session's end, and each reply spelled.

ghost use Rattle.std.specs.Prelude.{◌≡◌, ◌≤◌, ◌<◌, ◌+◌, ◌^◌, None, IfOk};
ghost use Rattle.ct_yard.specs.Yards.{IsSettled};

use crate::reply::write_reply;
use crate::{LONGEST_REPLY, SessionRun, serve};
use ct_disk::{Disk, DiskError, HaltCause, MemDisk};
use ct_isam::{Reply, Session};
use ct_items::NoMemory;
use ct_log::{Log, make_log, open_gate};
use ct_model::State;
use ct_yard::Yard;
use std::alloc::{AllocError, Global};
use std::test::Fail;

// a store without files
fn new_yard<P: Disk + Drop, L: Disk + Drop>(
    alloc: Global,
    pages: P,
    mut device: L,
) -> Result<Yard<P, L>, DiskError>
    ensures settled { IfOk result (λ yard. IsSettled yard) }
{
    make_log(&mut device, b"STORE", 0)?;
    open_gate(&mut device)?;
    let Ok((log, _)) = Log::open(alloc, device) else {
        return Err(DiskError::Memory);
    };
    Ok(Yard::assemble(pages, State::new(alloc), log, 0))
}

// lets a store go
fn close<P: Disk + Drop, L: Disk + Drop>(yard: Yard<P, L>) {
    let Yard {
        pages: _pages,
        state: _state,
        log: _log,
        front: _,
        halt: _,
    } = yard;
}

// the replies of a session to lines, of which a star is one that was too long
fn answer_all<P: Disk, L: Disk>(
    alloc: Global,
    yard: &mut Yard<P, L>,
    lines: &[&str],
) -> Result<Vec<u8>, NoMemory>
    requires settled { IsSettled yard.old }
{
    let mut run = SessionRun::new(alloc, 1);
    let mut replies = Vec::new(alloc);
    for line in lines {
        replies.reserve(LONGEST_REPLY)?;
        let line = if *line == "*" {
            None
        } else {
            Some(line.as_bytes())
        };
        serve(alloc, yard, &mut run, line, &mut replies);
    }
    run.finish();
    Ok(replies)
}

// the same on a store without files
fn replies_to(alloc: Global, lines: &[&str]) -> Result<Vec<u8>, DiskError> {
    let mut yard = new_yard(alloc, MemDisk::new(alloc), MemDisk::new(alloc))?;
    let replies = answer_all(alloc, &mut yard, lines);
    close(yard);
    Ok(replies?)
}

#[test]
fn lines_outside_the_grammar_have_their_place(rt: HostRuntime) -> Result<(), Fail> {
    let rows = [
        ("HELLO", "ERR BADLINE 0\n"),
        ("GET part", "ERR BADLINE 8\n"),
        ("ADD part a\\0", "ERR BADLINE 10\n"),
        ("FIRST part id extra", "ERR BADLINE 14\n"),
        ("", "ERR BADLINE 0\n"),
        ("*", "ERR BADLINE 16384\n"),
    ];
    for (line, wanted) in rows {
        let replies = replies_to(rt.alloc(), &[line])?;
        assert_eq!(rt; replies.as_slice(), wanted.as_bytes(), "{line}");
    }
    Ok(())
}

#[test]
fn nothing_is_answered_after_the_end(rt: HostRuntime) -> Result<(), Fail> {
    let replies = replies_to(rt.alloc(), &["HELLO", "QUIT", "HELLO", "QUIT", "*"])?;
    assert_eq!(rt; replies.as_slice(), b"ERR BADLINE 0\nOK\n".as_slice());
    Ok(())
}

// how a reply is written
fn spelled(alloc: Global, reply: Reply) -> Result<Vec<u8>, AllocError> {
    let mut out = Vec::with_capacity(alloc, LONGEST_REPLY)?;
    write_reply(reply, &Session::new(alloc), &mut out);
    Ok(out)
}

#[test]
fn each_reply_is_spelled(rt: HostRuntime) -> Result<(), Fail> {
    let rows = [
        (Reply::Ok, "OK\n"),
        (Reply::Number(u64::MAX), "OK 18446744073709551615\n"),
        (Reply::NoIndex, "ERR NOINDEX\n"),
        (Reply::NoCurrent, "ERR ICUR_ERR\n"),
        (Reply::Duplicate, "ERR KDUP_ERR\n"),
        (Reply::Halted(HaltCause::Limit), "ERR HALT_ERR LIMIT\n"),
        (
            Reply::Halted(HaltCause::BadLog(7)),
            "ERR HALT_ERR BADLOG 7\n",
        ),
        (Reply::Memory, "ERR MEMORY\n"),
    ];
    for (reply, wanted) in rows {
        let text = spelled(rt.alloc(), reply)?;
        assert_eq!(rt; text.as_slice(), wanted.as_bytes(), "{wanted}");
    }
    Ok(())
}
