//! A row: the devices of a store, and the command that is run over them next.

use ct_disk::MemDisk;
use ct_items::NoMemory;
use ct_link::{MemSink, MemSource};
use ct_tool::{Cause, Ended, run_tool};
use std::alloc::Global;

/// What is arranged for a command's input and output.
#[derive(Clone, Copy)]
struct Arranged {
    /// How many bytes a call takes and puts at most.
    pieces: usize,
    /// Which call of the input fails, counted from 1; none at 0.
    input_fails: u64,
    /// Which call of the output fails.
    output_fails: u64,
    /// Whether the input ends without an LF.
    is_cut: bool,
}

impl Arranged {
    /// Nothing is arranged.
    const NOTHING: Arranged = Arranged {
        pieces: usize::MAX,
        input_fails: 0,
        output_fails: 0,
        is_cut: false,
    };
}

/// The devices of a store, and a command with its input so far.
#[derive(Drop)]
pub struct Row {
    pages: MemDisk,
    log: MemDisk,
    words: Vec<String>,
    input: String,
    arranged: Arranged,
}

/// What a command came to.
#[derive(Drop)]
pub struct Outcome {
    /// The devices as it left them, with no command begun.
    pub row: Row,
    /// What it wrote.
    pub output: MemSink,
    /// How it ended.
    pub cause: Cause,
    /// The number of the last transaction.
    pub front: u64,
}

impl Row {
    /// Devices that hold nothing.
    pub fn new(alloc: Global) -> Row {
        Row {
            pages: MemDisk::new(alloc),
            log: MemDisk::new(alloc),
            words: Vec::new(alloc),
            input: String::new(alloc),
            arranged: Arranged::NOTHING,
        }
    }

    /// Arranges what is to happen to the devices before the next command, or in it. What is not known is passed over.
    pub fn arrange(self, alloc: Global, what: &str, number: u64) -> Result<Row, NoMemory> {
        let mut row = self;
        match what {
            "pieces of" => row.arranged.pieces = number.max(1) as usize,
            "input fails at" => row.arranged.input_fails = number,
            "output fails at" => row.arranged.output_fails = number,
            "input lacks its last" => row.arranged.is_cut = true,
            "log fails from" => row.log.fail_from(number),
            "devices as a crash leaves them, pick" => return row.crashed(number),
            "devices as they are read, calls" => return row.renewed(alloc),
            _ => {}
        }
        Ok(row)
    }

    /// The devices as a crash leaves them.
    fn crashed(self, pick: u64) -> Result<Row, NoMemory> {
        let Row {
            pages,
            log,
            words,
            input,
            arranged,
        } = self;
        Ok(Row {
            pages: pages.crash(pick)?,
            log: log.crash(pick)?,
            words,
            input,
            arranged,
        })
    }

    /// The devices as a read gives them, with no call made yet.
    fn renewed(self, alloc: Global) -> Result<Row, NoMemory> {
        let pages = MemDisk::of(alloc, self.pages.bytes())?;
        let log = MemDisk::of(alloc, self.log.bytes())?;
        let Row {
            pages: _,
            log: _,
            words,
            input,
            arranged,
        } = self;
        Ok(Row {
            pages,
            log,
            words,
            input,
            arranged,
        })
    }

    /// Whether a command has begun.
    pub fn has_command(&self) -> bool {
        !self.words.is_empty()
    }

    /// Begins a command with these words, one space between two of them.
    pub fn begin(&mut self, alloc: Global, words: &str) -> Result<(), NoMemory> {
        for word in words.split(' ') {
            self.words.push(String::from_str(alloc, word)?)?;
        }
        Ok(())
    }

    /// Adds a line to the input of the command.
    pub fn add_line(&mut self, line: &str) -> Result<(), NoMemory> {
        self.input.push_str(line)?;
        self.input.push('\n')?;
        Ok(())
    }

    /// Runs the command.
    pub fn run(self, alloc: Global) -> Result<Outcome, NoMemory> {
        let Row {
            pages,
            log,
            words,
            mut input,
            arranged,
        } = self;
        if arranged.is_cut {
            input.pop();
        }
        let mut input = arranged_input(alloc, input.as_bytes(), arranged)?;
        let mut output = arranged_output(alloc, arranged)?;
        let Ended {
            status: _,
            cause,
            pages,
            log,
            front,
        } = run_tool(alloc, &words, pages, log, &mut input, &mut output);
        let row = Row {
            pages,
            log,
            words: Vec::new(alloc),
            input: String::new(alloc),
            arranged: Arranged::NOTHING,
        };
        Ok(Outcome {
            row,
            output,
            cause,
            front,
        })
    }
}

/// An input of these bytes, as it is arranged.
fn arranged_input(alloc: Global, bytes: &[u8], arranged: Arranged) -> Result<MemSource, NoMemory> {
    let mut input = MemSource::new(alloc, bytes)?;
    input.in_pieces(arranged.pieces.max(1));
    if arranged.input_fails > 0 {
        input.fail_at(arranged.input_fails)?;
    }
    Ok(input)
}

/// An output, as it is arranged.
fn arranged_output(alloc: Global, arranged: Arranged) -> Result<MemSink, NoMemory> {
    let mut output = MemSink::new(alloc);
    output.in_pieces(arranged.pieces.max(1));
    if arranged.output_fails > 0 {
        output.fail_at(arranged.output_fails)?;
    }
    Ok(output)
}
