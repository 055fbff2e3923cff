//! A reader as a source.
//! It reads once a call, into a block of its own, and hands out what came.

ghost use Rattle.std.specs.Prelude.{◌≡◌, ◌<◌, ◌≤◌, IfOk, length};
ghost use Rattle.std.specs.Io.KnownBytes.{ReadConsumes};
ghost use Rattle.ct_link.specs.Faults.{raised};
ghost use Rattle.ct_link.specs.Source.{KeepsRest};

use ct_items::NoMemory;
use ct_link::{Source, SourceFault};
use std::alloc::Global;
use std::io;
use std::io::Read;

/// The bytes of a reader, as of standard input, as a source. It tells the bytes left where the
/// reader does.
#[derive(Drop)]
pub struct ReadSource<R> {
    reader: R,
    block: Vec<u8>,
    count: u64,
    faults: u64,
}

impl<R: Read> ReadSource<R> {
    /// The most bytes that a call takes.
    pub const BLOCK: usize = 65536;

    /// A source of what the reader has left, with no byte taken.
    pub fn new(alloc: Global, reader: R) -> Result<ReadSource<R>, NoMemory>
    where
        R: Drop,
        ensures left { IfOk result (λ source. ⟦<ReadSource<R> as Source>⟧.left source ≡ R.remaining reader) }
        ensures count { IfOk result (λ source. ⟦<ReadSource<R> as Source>⟧.count source ≡ 0) }
        ensures faults { IfOk result (λ source. ⟦<ReadSource<R> as Source>⟧.faults source ≡ 0) }
    {
        let block = vec![in alloc; 0; Self::BLOCK]?;
        Ok(ReadSource {
            reader,
            block,
            count: 0,
            faults: 0,
        })
    }

    fn count_fault(&mut self)
        ensures new { self.new ≡ record self.old { faults = raised self.old.faults } }
        ensures later { self.old.faults ≤ self.new.faults }
    {
        self.faults = self.faults.saturating_add(1);
    }
}

/// One read into the block, tried again after each interruption.
fn read_block<R: Read>(reader: &mut R, block: &mut [u8]) -> io::Result<usize>
    ensures bound { IfOk result (λ n. n ≤ length block.new) }
    ensures bytes { ReadConsumes (R.remaining reader.old) (R.remaining reader.new) result block.new }
{
    for _ in 0..u64::MAX {
        match reader.read(block) {
            Ok(n) => return Ok(n),
            Err(error) => {
                if error.kind() != io::ErrorKind::Interrupted {
                    return Err(error);
                }
            }
        }
    }
    Err(io::Error::from(io::ErrorKind::TimedOut))
}

/// One read into the block, whose bytes are then copied to the front of `into`.
fn read_through<R: Read>(reader: &mut R, block: &mut [u8], into: &mut [u8]) -> io::Result<usize>
    requires some { 0 < length block.old }
    requires room { length block.old ≤ length into.old }
    ensures bound { IfOk result (λ n. n ≤ length block.old) }
    ensures bytes { ReadConsumes (R.remaining reader.old) (R.remaining reader.new) result into.new }
    ensures rest { KeepsRest result into.old into.new }
{
    let n = read_block(reader, block)?;
    into[..n].copy_from_slice(&block[..n]);
    Ok(n)
}

impl<R: Read> Source for ReadSource<R> {
    ghost use Rattle.std.specs.Prelude.{None};

    ghost taken = { λ _. None };

    ghost left = { λ source. R.remaining source.reader };

    ghost count = { λ source. source.count };

    ghost faults = { λ source. source.faults };

    fn take(&mut self, into: &mut [u8]) -> Result<usize, SourceFault> {
        if into.is_empty() {
            return Ok(0);
        }
        let room = (u64::MAX - self.count) as usize;
        let most = into.len().min(self.block.len()).min(room);
        if most == 0 {
            self.count_fault();
            return Err(SourceFault);
        }
        let Ok(n) = read_through(&mut self.reader, &mut self.block[..most], into) else {
            self.count_fault();
            return Err(SourceFault);
        };
        self.count += n as u64;
        Ok(n)
    }

    ghost counts_taken = { λ _. tt };
}
