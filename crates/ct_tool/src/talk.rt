//! A session that answers lines over its store: one line, the lines of a block of input, the last one.
//! Replies are gathered, and put before more input is asked for.

ghost use Rattle.std.specs.Prelude.{◌≡◌, ◌≤◌, ◌+◌, ◌<◌, ◌^◌, ℕ, List, [], ◌∷◌, Option, None, OnOk, vec_len, vec_capacity, length};
ghost use Rattle.std.specs.Option.{option_copied};
ghost use Rattle.ct_link.specs.Sink.{HasSinkCause};
ghost use Rattle.ct_lines.specs.Lines.{lines_from, held_after, last_line};
ghost use Rattle.ct_tool.specs.Talking.{Puts};
ghost use Rattle.ct_yard.specs.Telling.{telling};
ghost use Rattle.ct_yard.specs.Yards.{IsSettled};

use ct_disk::Disk;
use ct_lines::{Held, first_line};
use ct_link::{Sink, SinkError, put_all};
use ct_session::{LONGEST_REPLY, SessionRun, serve};
use ct_yard::Yard;
use std::alloc::Global;

/// Replies are gathered up to this many bytes.
const GATHERED: usize = 65536;

/// The room that is taken for them beforehand: for one more reply besides.
pub(crate) const REPLIES_ROOM: usize = GATHERED + LONGEST_REPLY;

/// The tool has one session.
const SESSION: u32 = 1;

/// Puts the replies that wait.
fn put_replies<O: Sink>(replies: &mut Vec<u8>, out: &mut O) -> Result<(), SinkError>
    ensures put { Puts result (O.written out.old) (O.written out.new) replies.old.items replies.new.items }
    ensures none { OnOk result (replies.new.items ≡ []) }
    ensures capacity { vec_capacity replies.old ≤ vec_capacity replies.new }
    ensures cause { HasSinkCause result (O.faults out.old) (O.faults out.new) }
{
    if let Err(error) = put_all(out, replies.as_slice()) {
        return Err(error);
    }
    replies.clear();
    Ok(())
}

/// Makes room for one more reply.
fn make_room<O: Sink>(replies: &mut Vec<u8>, out: &mut O) -> Result<(), SinkError>
    requires { REPLIES_ROOM ≤ vec_capacity replies.old }
    ensures put { Puts result (O.written out.old) (O.written out.new) replies.old.items replies.new.items }
    ensures room { OnOk result (vec_len replies.new + LONGEST_REPLY ≤ vec_capacity replies.new) }
    ensures capacity { vec_capacity replies.old ≤ vec_capacity replies.new }
    ensures cause { HasSinkCause result (O.faults out.old) (O.faults out.new) }
{
    if replies.len() < GATHERED {
        return Ok(());
    }
    put_replies(replies, out)
}

/// A session with its store, and the replies that wait for the output.
pub(crate) struct Talk<P: Disk, L: Disk> {
    alloc: Global,
    pub(crate) yard: Yard<P, L>,
    pub(crate) run: SessionRun,
    replies: Vec<u8>,
}

impl<P: Disk, L: Disk> Talk<P, L> {
    ghost use Rattle.ct_session.specs.Serving.{visit_of};
    ghost use Rattle.ct_session.specs.Steps.{begun_visit};
    ghost use Rattle.ct_tool.specs.Talking.{IsReady, Serves, scene_of};

    /// A session that has not begun, over a store that was opened.
    pub(crate) fn new(alloc: Global, yard: Yard<P, L>, replies: Vec<u8>) -> Talk<P, L>
        requires settled { IsSettled yard }
        requires room { REPLIES_ROOM ≤ vec_capacity replies }
        requires none { replies.items ≡ [] }
        ensures yard { result.yard ≡ yard }
        ensures visit { visit_of result.run ≡ begun_visit }
        ensures ready { IsReady result }
        ensures none { result.replies.items ≡ [] }
    {
        Talk {
            alloc,
            yard,
            run: SessionRun::new(alloc, SESSION),
            replies,
        }
    }

    /// Answers one line, which is none where it was too long.
    fn answer<O: Sink>(&mut self, line: Option<&[u8]>, out: &mut O) -> Result<(), SinkError>
        requires ready { IsReady self.old }
        ensures serves { Serves (telling L.tells L.faults L.content L.may_leave L.left_since) result (scene_of self.old) (option_copied line.entry ∷ []) (scene_of self.new) (O.written out.old) (O.written out.new) }
        ensures ready { IsReady self.new }
        ensures pages { self.new.yard.pages ≡ self.old.yard.pages }
        ensures cause { HasSinkCause result (O.faults out.old) (O.faults out.new) }
    {
        if let Err(error) = make_room(&mut self.replies, out) {
            return Err(error);
        }
        serve(
            self.alloc,
            &mut self.yard,
            &mut self.run,
            line,
            &mut self.replies,
        );
        Ok(())
    }

    /// Answers each line that ends in the block, and holds what stands behind the last.
    fn answer_block<O: Sink>(
        &mut self,
        held: &mut Held,
        block: &[u8],
        out: &mut O,
    ) -> Result<(), SinkError>
        requires ready { IsReady self.old }
        ensures serves { Serves (telling L.tells L.faults L.content L.may_leave L.left_since) result (scene_of self.old) (lines_from held.old block.now) (scene_of self.new) (O.written out.old) (O.written out.new) }
        ensures held { OnOk result (held.new ≡ held_after held.old block.now) }
        ensures ready { IsReady self.new }
        ensures pages { self.new.yard.pages ≡ self.old.yard.pages }
        ensures cause { HasSinkCause result (O.faults out.old) (O.faults out.new) }
    {
        let mut rest = block;
        while let Some((line, behind)) = first_line(rest) {
            held.hold(line);
            if let Err(error) = self.answer(held.ended(), out) {
                return Err(error);
            }
            held.clear();
            rest = behind;
        }
        held.hold(rest);
        Ok(())
    }

    /// Answers the lines that end in a piece of the input, and puts the replies.
    pub(crate) fn answer_piece<O: Sink>(
        &mut self,
        held: &mut Held,
        piece: &[u8],
        out: &mut O,
    ) -> Result<(), SinkError>
        requires ready { IsReady self.old }
        ensures serves { Serves (telling L.tells L.faults L.content L.may_leave L.left_since) result (scene_of self.old) (lines_from held.old piece.now) (scene_of self.new) (O.written out.old) (O.written out.new) }
        ensures none { OnOk result (self.new.replies.items ≡ []) }
        ensures held { OnOk result (held.new ≡ held_after held.old piece.now) }
        ensures ready { IsReady self.new }
        ensures pages { self.new.yard.pages ≡ self.old.yard.pages }
        ensures cause { HasSinkCause result (O.faults out.old) (O.faults out.new) }
    {
        if let Err(error) = self.answer_block(held, piece, out) {
            return Err(error);
        }
        put_replies(&mut self.replies, out)
    }

    /// Answers the unfinished last line, where there is one, and puts the replies.
    pub(crate) fn answer_end<O: Sink>(&mut self, held: &Held, out: &mut O) -> Result<(), SinkError>
        requires ready { IsReady self.old }
        ensures serves { Serves (telling L.tells L.faults L.content L.may_leave L.left_since) result (scene_of self.old) (last_line held.now) (scene_of self.new) (O.written out.old) (O.written out.new) }
        ensures none { OnOk result (self.new.replies.items ≡ []) }
        ensures ready { IsReady self.new }
        ensures pages { self.new.yard.pages ≡ self.old.yard.pages }
        ensures cause { HasSinkCause result (O.faults out.old) (O.faults out.new) }
    {
        if !held.is_within_line() {
            return put_replies(&mut self.replies, out);
        }
        if let Err(error) = self.answer(held.unfinished(), out) {
            return Err(error);
        }
        put_replies(&mut self.replies, out)
    }

    /// Ends the session, and gives its store back.
    pub(crate) fn into_yard(self) -> Yard<P, L>
        ensures { result ≡ self.yard }
    {
        let Talk {
            alloc: _,
            yard,
            run,
            replies: _replies,
        } = self;
        run.finish();
        yard
    }
}
