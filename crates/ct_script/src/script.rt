//! Reading a script line by line.
//! What was read so far is what the lines before say.

ghost use Rattle.std.specs.Prelude.{◌≡◌, ◌∷◌, ◌++◌, ◌<◌, ◌-◌, ◌^◌, [], ℕ, List, OnOk};
ghost use Rattle.ct_lines.specs.Lines.{without_cr};
ghost use Rattle.ct_script.specs.Scripts.{script_of, read_of, Tells};
ghost use Rattle.ct_script.specs.Reading.{reading_of, noted_name, noted_file, noted, Takes};

use crate::part::{Part, behind, part_of};
use crate::seen::Seen;
use ct_definitions::Name;
use ct_items::{Items, NoMemory};
use ct_lines::first_line;
use std::alloc::Global;
use thiserror::Error;

/// Where the name stands in a line that gives the dump's name.
const NAME_AT: usize = 6;

/// Names, in order.
pub type Names = Items<Name>;

/// Numbers, in order.
pub type Numbers = Items<u64>;

/// What a script asks for.
#[derive(Clone, Debug, PartialEq, Eq, Drop)]
pub struct Script {
    /// The name that the dump gets.
    pub name: Name,
    /// The files that are listed by name.
    pub files: Names,
    /// The numbers of the lines on which they are listed, from 1.
    pub lines: Numbers,
    /// Whether a line asks for all files.
    pub all: bool,
}

/// Why a text gives no script.
#[derive(Clone, Copy, Debug, PartialEq, Eq, Error)]
pub enum ScriptFault {
    /// This line, from 1, is the first that is outside the grammar.
    #[error("line {line} of the script is outside its grammar")]
    Line { line: u64 },
    #[error("out of memory")]
    Memory,
}

impl From<NoMemory> for ScriptFault {
    ghost use Rattle.ct_script.specs.declared.script.ScriptFault.TheVariants.{Memory};

    ghost from_gives = { λ _ fault. fault ≡ Memory };

    fn from(_refusal: NoMemory) -> ScriptFault {
        ScriptFault::Memory
    }
}

/// What the lines so far say.
#[derive(Drop)]
pub(crate) struct Reading {
    seen: Seen,
    /// How many lines were read.
    count: u64,
    name: Name,
    files: Names,
    lines: Numbers,
}

impl Reading {
    /// No line was read.
    fn new(alloc: Global) -> Reading
        ensures { result ≡ reading_of [] }
    {
        Reading {
            seen: Seen::NOTHING,
            count: 0,
            name: Items::new(alloc),
            files: Items::new(alloc),
            lines: Items::new(alloc),
        }
    }

    /// Keeps the name that a line gives.
    fn note_name(&mut self, alloc: Global, line: &[u8]) -> Result<(), NoMemory>
        ensures { OnOk result (self.new ≡ noted_name self.old line.now) }
    {
        self.name = Items::from_slice(alloc, behind(line, NAME_AT))?;
        Ok(())
    }

    /// Keeps the file that a line names.
    fn note_file(&mut self, alloc: Global, line: &[u8]) -> Result<(), NoMemory>
        requires { self.old.count < 2 ^ 64 - 1 }
        ensures { OnOk result (self.new ≡ noted_file self.old line.now) }
    {
        let file = Items::from_slice(alloc, line)?;
        self.files.push(file)?;
        self.lines.push(self.count + 1)
    }

    /// Keeps what the next line names.
    fn note(&mut self, alloc: Global, part: Part, line: &[u8]) -> Result<(), NoMemory>
        requires { self.old.count < 2 ^ 64 - 1 }
        ensures { OnOk result (self.new ≡ noted self.old part line.now) }
    {
        match part {
            Part::Dump => self.note_name(alloc, line),
            Part::File => self.note_file(alloc, line),
            _ => Ok(()),
        }
    }

    /// Reads the next line.
    fn take(&mut self, alloc: Global, line: &[u8]) -> Result<(), ScriptFault>
        requires { self.old.count < 2 ^ 64 - 1 }
        ensures { (before : List (List ℕ)) → self.old ≡ reading_of before → Takes result before line.now self.new }
    {
        let Some(part) = part_of(line) else {
            return Err(ScriptFault::Line {
                line: self.count + 1,
            });
        };
        if !self.seen.allows(part) {
            return Err(ScriptFault::Line {
                line: self.count + 1,
            });
        }
        self.note(alloc, part, line)?;
        self.seen = self.seen.with(part);
        self.count += 1;
        Ok(())
    }

    /// The script that the lines are.
    fn end(self) -> Result<Script, ScriptFault>
        requires { self.count < 2 ^ 64 - 1 }
        ensures { (before : List (List ℕ)) → self ≡ reading_of before → Tells result (script_of before []) }
    {
        if !self.seen.end {
            return Err(ScriptFault::Line {
                line: self.count + 1,
            });
        }
        let all = self.seen.all;
        let Reading {
            name,
            files,
            lines,
            ..
        } = self;
        Ok(Script {
            name,
            files,
            lines,
            all,
        })
    }
}

/// Reads a script. Every text is one, or has a first bad line.
pub fn read_script(alloc: Global, text: &[u8]) -> Result<Script, ScriptFault>
    ensures { Tells result (read_of text.now) }
{
    let mut reading = Reading::new(alloc);
    let mut rest = text;
    while let Some((line, after)) = first_line(rest) {
        match reading.take(alloc, without_cr(line)) {
            Ok(()) => rest = after,
            Err(fault) => return Err(fault),
        }
    }
    match reading.take(alloc, rest) {
        Ok(()) => reading.end(),
        Err(fault) => Err(fault),
    }
}

/// The line without a CR at its end.
fn without_cr(line: &[u8]) -> &[u8]
    ensures { result.now ≡ without_cr line.now }
{
    match line.last() {
        Some(b'\r') => &line[..line.len() - 1],
        _ => line,
    }
}
