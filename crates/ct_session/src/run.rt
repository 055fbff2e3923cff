//! A session: each line begins a call, and a turn answers it.
//! At this stage one turn is one whole call.

ghost use Rattle.std.specs.Prelude.{◌≡◌, ◌≤◌, ◌+◌, ℕ, List, Option, Some, None, true, false, OnOk, OnErr, vec_len, vec_capacity};
ghost use Rattle.std.specs.Option.{IsSome, option_copied};
ghost use Rattle.ct_yard.specs.Telling.{telling};
ghost use Rattle.ct_yard.specs.Yards.{IsSettled};
ghost use Rattle.ct_session.specs.declared.reply.TheConstants.{LONGEST_REPLY};
ghost use Rattle.ct_session.specs.Steps.{begun_visit, is_quit};
ghost use Rattle.ct_session.specs.Serving.{visit_of, IsUnderWay, Begins, AnswersRunning, AnswersCall, AnswersLine};

use crate::reply::{write_bad_line, write_halt, write_plain, write_reply};
use ct_disk::{Disk, Turn};
use ct_isam::{Session, answer};
use ct_items::NoMemory;
use ct_line::{Call, LONGEST_LINE, LineFault, read_line};
use ct_yard::Yard;
use std::alloc::Global;

/// What a session is asked while a line is under way.
#[derive(Debug, Drop)]
pub enum Asked {
    /// Nothing, since the session has ended.
    Nothing,
    /// Nothing, since the line leaves the grammar at this byte, counted from 0.
    BadLine(usize),
    /// A call.
    ACall(Call),
}

/// One session, from its first line to its end.
#[derive(Debug, Drop)]
pub struct SessionRun {
    /// Which session it is, from 1 to 64.
    pub number: u32,
    /// What it keeps of the files that it uses.
    pub session: Session,
    /// What is under way.
    pub asked: Option<Asked>,
    /// Whether QUIT has ended it.
    pub ended: bool,
}

impl SessionRun {
    /// A session that has used no file.
    pub fn new(alloc: Global, number: u32) -> SessionRun
        requires low { 1 ≤ number }
        requires high { number ≤ 64 }
        ensures visit { visit_of result ≡ begun_visit }
        ensures idle { result.asked ≡ None }
        ensures number { result.number ≡ number }
    {
        SessionRun {
            number,
            session: Session::new(alloc),
            asked: None,
            ended: false,
        }
    }

    /// Whether QUIT has ended the session.
    pub fn has_ended(&self) -> bool
        ensures { result ≡ self.now.ended }
    {
        self.ended
    }

    /// Begins what a line asks for, which is given without its LF and the CR before it.
    /// For want of memory nothing changes.
    pub fn line(&mut self, alloc: Global, line: &[u8]) -> Result<(), NoMemory>
        requires idle { self.old.asked ≡ None }
        ensures ok { OnOk result (Begins (Some line.now) self.new) }
        ensures err { OnErr result ((self.new.asked ≡ None) × (self.new.ended ≡ false)) }
        ensures visit { visit_of self.new ≡ visit_of self.old }
        ensures number { self.new.number ≡ self.old.number }
    {
        if self.ended {
            self.asked = Some(Asked::Nothing);
            return Ok(());
        }
        match read_line(alloc, line) {
            Ok(call) => self.asked = Some(Asked::ACall(call)),
            Err(LineFault::Bad { at }) => self.asked = Some(Asked::BadLine(at)),
            Err(LineFault::Memory) => return Err(NoMemory),
        }
        Ok(())
    }

    /// Begins what a line that was too long asks for.
    pub fn long_line(&mut self)
        requires idle { self.old.asked ≡ None }
        ensures begins { Begins None self.new }
        ensures visit { visit_of self.new ≡ visit_of self.old }
        ensures number { self.new.number ≡ self.old.number }
    {
        self.asked = Some(if self.ended {
            Asked::Nothing
        } else {
            Asked::BadLine(LONGEST_LINE)
        });
    }

    /// Makes one turn of what is under way, which is all of it, and writes the reply behind those that wait.
    /// After the session's end nothing is written.
    pub fn turn<P: Disk, L: Disk>(
        &mut self,
        alloc: Global,
        yard: &mut Yard<P, L>,
        out: &mut Vec<u8>,
    ) -> Turn<()>
        requires begun { IsSome self.old.asked }
        requires room { vec_len out.old + LONGEST_REPLY ≤ vec_capacity out.old }
        requires settled { IsSettled yard.old }
        ensures answers { (line : Option (List ℕ)) → Begins line self.old → AnswersLine (telling L.tells L.faults L.content L.may_leave L.left_since) yard.old (visit_of self.old) line yard.new (visit_of self.new) out.old.items out.new.items }
        ensures done { result ≡ Turn.Done tt }
        ensures idle { self.new.asked ≡ None }
        ensures number { self.new.number ≡ self.old.number }
        ensures settled { IsSettled yard.new }
        ensures pages { yard.new.pages ≡ yard.old.pages }
        ensures capacity { vec_capacity out.old ≤ vec_capacity out.new }
    {
        let asked = self.asked.take().unwrap();
        self.answer_asked(alloc, yard, asked, out);
        Turn::Done(())
    }

    /// Answers what was under way.
    fn answer_asked<P: Disk, L: Disk>(
        &mut self,
        alloc: Global,
        yard: &mut Yard<P, L>,
        asked: Asked,
        out: &mut Vec<u8>,
    )
        requires room { vec_len out.old + LONGEST_REPLY ≤ vec_capacity out.old }
        requires settled { IsSettled yard.old }
        ensures answers { (line : Option (List ℕ)) → IsUnderWay line self.old.ended asked → AnswersLine (telling L.tells L.faults L.content L.may_leave L.left_since) yard.old (visit_of self.old) line yard.new (visit_of self.new) out.old.items out.new.items }
        ensures asked { self.new.asked ≡ self.old.asked }
        ensures number { self.new.number ≡ self.old.number }
        ensures settled { IsSettled yard.new }
        ensures pages { yard.new.pages ≡ yard.old.pages }
        ensures capacity { vec_capacity out.old ≤ vec_capacity out.new }
    {
        match asked {
            Asked::ACall(call) => self.answer_call(alloc, yard, call, out),
            Asked::BadLine(at) => write_bad_line(at, out),
            Asked::Nothing => {}
        }
    }

    /// Answers a call: QUIT ends the session, also where the store has halted.
    fn answer_call<P: Disk, L: Disk>(
        &mut self,
        alloc: Global,
        yard: &mut Yard<P, L>,
        call: Call,
        out: &mut Vec<u8>,
    )
        requires room { vec_len out.old + LONGEST_REPLY ≤ vec_capacity out.old }
        requires settled { IsSettled yard.old }
        ensures answers { AnswersCall (telling L.tells L.faults L.content L.may_leave L.left_since) call yard.old (visit_of self.old) yard.new (visit_of self.new) out.old.items out.new.items }
        ensures asked { self.new.asked ≡ self.old.asked }
        ensures number { self.new.number ≡ self.old.number }
        ensures settled { IsSettled yard.new }
        ensures pages { yard.new.pages ≡ yard.old.pages }
        ensures capacity { vec_capacity out.old ≤ vec_capacity out.new }
    {
        if is_quit(&call) {
            self.ended = true;
            write_plain(b"OK\n", out);
            return;
        }
        match yard.halt {
            Some(cause) => write_halt(cause, out),
            None => answer_running(alloc, yard, &mut self.session, call, out),
        }
    }

    /// The session's end.
    pub fn finish(self) {
        let SessionRun {
            number: _,
            session: _session,
            asked: _asked,
            ended: _,
        } = self;
    }
}

/// Whether a call ends the session.
fn is_quit(call: &Call) -> bool
    ensures { result ≡ is_quit call.now }
{
    matches!(call, Call::Quit)
}

/// Answers a call that is not QUIT, where the store runs.
fn answer_running<P: Disk, L: Disk>(
    alloc: Global,
    yard: &mut Yard<P, L>,
    session: &mut Session,
    call: Call,
    out: &mut Vec<u8>,
)
    requires running { yard.old.halt ≡ None }
    requires room { vec_len out.old + LONGEST_REPLY ≤ vec_capacity out.old }
    requires settled { IsSettled yard.old }
    ensures answers { AnswersRunning (telling L.tells L.faults L.content L.may_leave L.left_since) call yard.old session.old yard.new session.new out.old.items out.new.items }
    ensures settled { IsSettled yard.new }
    ensures pages { yard.new.pages ≡ yard.old.pages }
    ensures capacity { vec_capacity out.old ≤ vec_capacity out.new }
{
    // Each image in these files has a length that a record may have, so its reply has room.
    let _files = yard.state.files();
    let reply = answer(alloc, yard, session, call);
    write_reply(reply, session, out);
}

/// Answers one line, which is none where it was too long, and writes the reply behind those that wait.
pub fn serve<P: Disk, L: Disk>(
    alloc: Global,
    yard: &mut Yard<P, L>,
    run: &mut SessionRun,
    line: Option<&[u8]>,
    out: &mut Vec<u8>,
)
    requires idle { run.old.asked ≡ None }
    requires room { vec_len out.old + LONGEST_REPLY ≤ vec_capacity out.old }
    requires settled { IsSettled yard.old }
    ensures answers { AnswersLine (telling L.tells L.faults L.content L.may_leave L.left_since) yard.old (visit_of run.old) (option_copied line.entry) yard.new (visit_of run.new) out.old.items out.new.items }
    ensures idle { run.new.asked ≡ None }
    ensures settled { IsSettled yard.new }
    ensures pages { yard.new.pages ≡ yard.old.pages }
    ensures capacity { vec_capacity out.old ≤ vec_capacity out.new }
{
    match begin(alloc, run, line) {
        Ok(()) => {
            let _ = run.turn(alloc, yard, out);
        }
        Err(NoMemory) => write_plain(b"ERR MEMORY\n", out),
    }
}

/// Begins what a line asks for, which is none where it was too long.
fn begin(alloc: Global, run: &mut SessionRun, line: Option<&[u8]>) -> Result<(), NoMemory>
    requires idle { run.old.asked ≡ None }
    ensures ok { OnOk result (Begins (option_copied line.entry) run.new) }
    ensures err { OnErr result ((run.new.asked ≡ None) × (run.new.ended ≡ false)) }
    ensures visit { visit_of run.new ≡ visit_of run.old }
{
    match line {
        Some(line) => run.line(alloc, line),
        None => {
            run.long_line();
            Ok(())
        }
    }
}
