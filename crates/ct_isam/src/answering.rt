//! A call of a session answered.

ghost use Rattle.std.specs.Prelude.{◌≡◌, None};
ghost use Rattle.ct_yard.specs.Telling.{telling};
ghost use Rattle.ct_yard.specs.Yards.{IsSettled};
ghost use Rattle.ct_isam.specs.Serving.{Serves};
ghost use Rattle.ct_isam.specs.Told.{reply_of};

use crate::adding::add;
use crate::creating::create;
use crate::reply::Reply;
use crate::searching::{search_for, walk};
use crate::session::Session;
use ct_disk::Disk;
use ct_line::Call;
use ct_yard::Yard;
use std::alloc::Global;

/// Answers a call on a running store, as `specs/Calls.antt` says.
/// Want of memory before anything is written to the log is `Memory`, and leaves all as it was.
pub fn answer<P: Disk, L: Disk>(
    alloc: Global,
    yard: &mut Yard<P, L>,
    session: &mut Session,
    call: Call,
) -> Reply
    requires running { yard.old.halt ≡ None }
    requires settled { IsSettled yard.old }
    ensures serves { Serves (telling L.tells L.faults L.content L.may_leave L.left_since) call yard.old session.old (reply_of session.new result) yard.new session.new }
    ensures settled { IsSettled yard.new }
    ensures pages { yard.new.pages ≡ yard.old.pages }
{
    match call {
        Call::Create(file) => create(alloc, yard, &file),
        Call::Add { file, image } => add(alloc, yard, session, file.as_slice(), image),
        Call::Walk {
            walk: kind,
            file,
            index,
        } => walk(
            alloc,
            &yard.state,
            session,
            kind,
            file.as_slice(),
            index.as_slice(),
        ),
        Call::Search {
            search,
            file,
            index,
            target,
        } => search_for(
            alloc,
            &yard.state,
            session,
            search,
            file.as_slice(),
            index.as_slice(),
            target.as_slice(),
        ),
        Call::Front => Reply::Number(yard.front),
        Call::Quit => Reply::Ok,
        Call::Begin
        | Call::Commit
        | Call::Abort
        | Call::Save
        | Call::Restore { .. }
        | Call::Lock(_)
        | Call::Rewrite { .. }
        | Call::Delete { .. }
        | Call::Checkpoint
        | Call::Dump { .. } => Reply::Unbuilt,
    }
}
