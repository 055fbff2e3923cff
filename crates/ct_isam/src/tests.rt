//! Each call over a store in memory, and the searches among duplicates and null keys.

ghost use Rattle.std.specs.Prelude.{IfOk};
ghost use Rattle.ct_yard.specs.Yards.{IsSettled};

use crate::{Reply, Session, answer};
use ct_disk::{Disk, DiskError, MemDisk};
use ct_line::read_line;
use ct_log::{Log, make_log, open_gate};
use ct_model::State;
use ct_yard::Yard;
use std::alloc::{AllocError, Global};

// a store without files
fn new_yard<P: Disk + Drop, L: Disk + Drop>(
    alloc: Global,
    pages: P,
    mut device: L,
) -> Result<Yard<P, L>, DiskError>
    ensures settled { IfOk result (λ yard. IsSettled yard) }
{
    make_log(&mut device, b"STORE", 0)?;
    open_gate(&mut device)?;
    let Ok((log, _)) = Log::open(alloc, device) else {
        return Err(DiskError::Memory);
    };
    Ok(Yard::assemble(pages, State::new(alloc), log, 0))
}

// the reply to a line; a record that was found is told by its number
fn reply_to<P: Disk, L: Disk>(
    alloc: Global,
    yard: &mut Yard<P, L>,
    session: &mut Session,
    line: &str,
) -> Reply
    requires { IsSettled yard.old }
    ensures { IsSettled yard.new }
{
    let Ok(call) = read_line(alloc, line.as_bytes()) else {
        return Reply::Memory;
    };
    if let Some(cause) = yard.halt {
        return Reply::Halted(cause);
    }
    match answer(alloc, yard, session, call) {
        Reply::Found { file } => number_of(session, file),
        reply => reply,
    }
}

// the number of the current record
fn number_of(session: &Session, file: u16) -> Reply {
    match session.current(file) {
        Some(row) => Reply::Number(row.num),
        None => Reply::NoCurrent,
    }
}

// the replies to lines
fn replies<P: Disk, L: Disk>(
    alloc: Global,
    yard: &mut Yard<P, L>,
    lines: &[&str],
) -> Result<Vec<Reply>, AllocError>
    requires { IsSettled yard.old }
{
    let mut session = Session::new(alloc);
    let mut replies = Vec::new(alloc);
    for line in lines {
        replies.push(reply_to(alloc, yard, &mut session, line))?;
    }
    Ok(replies)
}

// lets a store go
fn close<P: Disk + Drop, L: Disk + Drop>(yard: Yard<P, L>) {
    let Yard {
        pages: _pages,
        state: _state,
        log: _log,
        front: _,
        halt: _,
    } = yard;
}

// the replies to lines on a store without files
fn replies_to(alloc: Global, lines: &[&str]) -> Result<Vec<Reply>, DiskError> {
    let mut yard = new_yard(alloc, MemDisk::new(alloc), MemDisk::new(alloc))?;
    let replies = replies(alloc, &mut yard, lines);
    close(yard);
    match replies {
        Ok(replies) => Ok(replies),
        Err(AllocError) => Err(DiskError::Memory),
    }
}

#[test]
fn files_are_made_and_records_added(rt: HostRuntime) {
    let lines = [
        "CREATE part VAR 2 10 KEY k UNIQUE SEG REGSEG 0 2",
        "CREATE part FIX 4 KEY k UNIQUE SEG REGSEG 0 65538",
        "CREATE w VAR 2 10 KEY k UNIQUE SEG REGSEG 1 2",
        "ADD part ab",
        "ADD part abcd",
        "ADD part a",
        "ADD other ab",
        "FRONT",
        "BEGIN",
        "QUIT",
    ];
    let wanted = [
        Reply::Number(1),
        Reply::Exists,
        Reply::BadDef,
        Reply::Number(1),
        Reply::Duplicate,
        Reply::BadLen,
        Reply::NoFile,
        Reply::Number(2),
        Reply::Unbuilt,
        Reply::Ok,
    ];
    let replies = replies_to(rt.alloc(), &lines).expect(&rt, "replies");
    assert_eq!(rt; replies.as_slice(), wanted.as_slice());
}

#[test]
fn duplicates_stand_by_number(rt: HostRuntime) {
    let lines = [
        "CREATE ev FIX 2 KEY k DUP NULL 2D SEG UREGSEG 0 1",
        "ADD ev b1",
        "ADD ev a2",
        "ADD ev -3",
        "ADD ev B4",
        "FIRST ev k",
        "NEXT ev k",
        "NEXT ev k",
        "NEXT ev k",
        "PREV ev k",
        "FIRSTSET ev k b",
        "NEXTSET ev k",
        "NEXTSET ev k",
        "GET ev k c",
        "LTE ev k c",
        "GT ev k a",
        "LAST ev other",
        "GTE ev k ab",
    ];
    let wanted = [
        Reply::Number(1),
        Reply::Number(1),
        Reply::Number(2),
        Reply::Number(3),
        Reply::Number(4),
        Reply::Number(2),
        Reply::Number(1),
        Reply::Number(4),
        Reply::NotFound,
        Reply::Number(1),
        Reply::Number(1),
        Reply::Number(4),
        Reply::NotFound,
        Reply::NotFound,
        Reply::Number(4),
        Reply::Number(1),
        Reply::NoIndex,
        Reply::BadLen,
    ];
    let replies = replies_to(rt.alloc(), &lines).expect(&rt, "replies");
    assert_eq!(rt; replies.as_slice(), wanted.as_slice());
}
