//! One session over the input, on a store that was opened.

ghost use Rattle.std.specs.Prelude.{◌≡◌, ◌≢◌, ◌≤◌, ◌<◌, ◌+◌, ◌^◌, [], Bool, List, ℕ, Some, None, IfOk, IsTrue, vec_capacity, vec_len};
ghost use Rattle.ct_yard.specs.Telling.{telling};
ghost use Rattle.ct_yard.specs.Machine.{Machine};
ghost use Rattle.ct_yard.specs.Yards.{IsSettled, StandsFor};
ghost use Rattle.ct_tool.specs.Ends.{status_of};
ghost use Rattle.ct_tool.specs.declared.session.TheConstants.{BLOCK};
ghost use Rattle.ct_tool.specs.declared.talk.TheConstants.{REPLIES_ROOM};
ghost use Rattle.ct_tool.specs.Causes.{IsSessionCause, HasRunCause};
ghost use Rattle.ct_tool.specs.Talking.{input_of, output_of};
ghost use Rattle.ct_tool.specs.Runs.{RanOver, IsOver};

use crate::ended::{Cause, Ended, cause_of};
use crate::input::listen;
use crate::talk::{REPLIES_ROOM, Talk};
use ct_disk::Disk;
use ct_items::NoMemory;
use ct_lines::Held;
use ct_link::{Sink, Source};
use ct_yard::Yard;
use std::alloc::Global;

/// Input is taken in blocks of this many bytes.
pub(crate) const BLOCK: usize = 65536;

/// The memory of a session, taken before anything else is done.
#[derive(Drop)]
pub(crate) struct Room {
    held: Held,
    block: Vec<u8>,
    replies: Vec<u8>,
    ghost begins: { held ≡ Some [] },
    ghost whole: { vec_len block ≡ BLOCK },
    ghost empty: { replies.items ≡ [] },
    ghost capacity: { REPLIES_ROOM ≤ vec_capacity replies },
}

impl Room {
    pub(crate) fn new(alloc: Global) -> Result<Room, NoMemory> {
        let held = Held::new(alloc)?;
        let block = vec![in alloc; 0; BLOCK]?;
        let replies = Vec::with_capacity(alloc, REPLIES_ROOM)?;
        Ok(Room {
            held,
            block,
            replies,
        })
    }
}

/// Runs one session over a yard.
pub(crate) fn run_session<P: Disk, L: Disk, I: Source, O: Sink>(
    alloc: Global,
    yard: Yard<P, L>,
    room: Room,
    input: &mut I,
    out: &mut O,
) -> Ended<P, L>
    requires settled { IsSettled yard }
    ensures status { result.status ≡ status_of result.cause }
    ensures pages { result.pages ≡ yard.pages }
    ensures ran { RanOver (telling L.tells L.faults L.content L.may_leave L.left_since) yard result.log result.cause result.front
        (input_of I.taken I.left I.count I.faults input.old) (input_of I.taken I.left I.count I.faults input.new) (output_of O.written O.faults out.old) (output_of O.written O.faults out.new) }
    ensures cause { (founded : Bool) (front : List ℕ) (machine : Machine) → (IsTrue founded → IsTrue L.tells) → StandsFor founded (telling L.tells L.faults L.content L.may_leave L.left_since) front machine yard → machine.halt ≡ None
        → IsSessionCause result.cause × HasRunCause result.cause (P.faults yard.pages) (P.faults result.pages) (L.faults yard.log.device) (L.faults result.log) (I.faults input.old) (I.faults input.new) (O.faults out.old) (O.faults out.new) }
    ensures done { (founded : Bool) (front : List ℕ) (machine : Machine) → (IsTrue founded → IsTrue L.tells) → StandsFor founded (telling L.tells L.faults L.content L.may_leave L.left_since) front machine yard → machine.halt ≡ None
        → result.cause ≡ Cause.Done → IsOver (I.left input.new) (I.taken input.old) (I.taken input.new) × (I.count input.new ≤ I.count input.old + 2 ^ 40) }
    ensures long { result.cause ≡ Cause.Long → I.count input.old + 2 ^ 40 < I.count input.new }
{
    let Room {
        mut held,
        mut block,
        replies,
    } = room;
    let mut talk = Talk::new(alloc, yard, replies);
    let stop = listen(&mut talk, &mut held, block.as_mut_slice(), input, out);
    let Yard {
        pages,
        state: _,
        log,
        front,
        halt,
    } = talk.into_yard();
    Ended::by(cause_of(stop, halt), pages, log.into_device(), front)
}
